// How a record is printed for people.
ghost use Rattle.std.specs.Prelude.{Some};
ghost use Rattle.roundfile.specs.Records.{content};
ghost use Rattle.listround.specs.Lines.{opening_text, draws_text, post_text, outputs_text, product_text, branches_text, comparator_text, record_text, line_text};

use roundfile::parts::{Comparator, Draws, Opening, Part, Post};
use roundfile::reader::Entry;
use roundfile::record::Record;
use std::fmt;

// A record with its offset, or a part of one, as it is printed: each field by its name.
#[derive(Clone, Copy)]
pub struct Shown<T>(pub T);

// The parts of a comparator: its outputs, the proof of their product, and the two branches.
#[derive(Clone, Copy)]
struct Outputs(Comparator);

#[derive(Clone, Copy)]
struct Product(Comparator);

#[derive(Clone, Copy)]
struct Branches(Comparator);

impl fmt::Display for Shown<Opening> {
    ghost output = { λ x. Some (opening_text x.0) };

    fn fmt<W: fmt::Write>(&self, f: &mut fmt::Formatter<W>) -> fmt::Result {
        let Opening {
            group,
            plan,
            wires,
            servers,
            key,
        } = self.0;
        write!(
            f,
            "opening group {group} plan {plan} wires {wires} servers {servers} key {key}"
        )
    }
}

impl fmt::Display for Shown<Part<'_, Draws>> {
    ghost output = { λ x. Some (draws_text x.0.fields.map x.0.fields.bytes.now) };

    fn fmt<W: fmt::Write>(&self, f: &mut fmt::Formatter<W>) -> fmt::Result {
        let count = self.0.count();
        write!(f, "draws count {count} words")?;
        for word in self.0.words() {
            write!(f, " {word}")?;
        }
        Ok(())
    }
}

impl fmt::Display for Shown<Post> {
    ghost output = { λ x. Some (post_text x.0) };

    fn fmt<W: fmt::Write>(&self, f: &mut fmt::Formatter<W>) -> fmt::Result {
        let Post { alpha, beta } = self.0;
        write!(f, "post alpha {alpha} beta {beta}")
    }
}

impl fmt::Display for Outputs {
    ghost output = { λ x. Some (outputs_text x.0) };

    fn fmt<W: fmt::Write>(&self, f: &mut fmt::Formatter<W>) -> fmt::Result {
        let Comparator {
            first_alpha,
            first_beta,
            second_alpha,
            second_beta,
            ..
        } = self.0;
        write!(
            f,
            "first_alpha {first_alpha} first_beta {first_beta} second_alpha {second_alpha} second_beta {second_beta}"
        )
    }
}

impl fmt::Display for Product {
    ghost output = { λ x. Some (product_text x.0) };

    fn fmt<W: fmt::Write>(&self, f: &mut fmt::Formatter<W>) -> fmt::Result {
        let Comparator {
            product_commitment,
            product_response,
            ..
        } = self.0;
        write!(
            f,
            "product_commitment {product_commitment} product_response {product_response}"
        )
    }
}

impl fmt::Display for Branches {
    ghost output = { λ x. Some (branches_text x.0) };

    fn fmt<W: fmt::Write>(&self, f: &mut fmt::Formatter<W>) -> fmt::Result {
        let Comparator {
            first_commitment,
            second_commitment,
            first_challenge,
            second_challenge,
            first_response,
            second_response,
            ..
        } = self.0;
        write!(
            f,
            "first_commitment {first_commitment} second_commitment {second_commitment} first_challenge {first_challenge} second_challenge {second_challenge} first_response {first_response} second_response {second_response}"
        )
    }
}

impl fmt::Display for Shown<Comparator> {
    ghost output = { λ x. Some (comparator_text x.0) };

    fn fmt<W: fmt::Write>(&self, f: &mut fmt::Formatter<W>) -> fmt::Result {
        let outputs = Outputs(self.0);
        let product = Product(self.0);
        let branches = Branches(self.0);
        write!(f, "comparator {outputs} {product} {branches}")
    }
}

impl fmt::Display for Shown<Record<'_>> {
    ghost output = { λ x. Some (record_text (content x.0)) };

    fn fmt<W: fmt::Write>(&self, f: &mut fmt::Formatter<W>) -> fmt::Result {
        match self.0 {
            Record::Opening(part) => Shown(part.values()).fmt(f),
            Record::Draws(part) => Shown(part).fmt(f),
            Record::Post(part) => Shown(part.values()).fmt(f),
            Record::Comparator(part) => Shown(part.values()).fmt(f),
            Record::Close => f.write_str("close"),
            Record::Expel => f.write_str("expel"),
        }
    }
}

impl fmt::Display for Shown<Entry<'_>> {
    ghost output = { λ x. Some (line_text x.0.offset (content x.0.record)) };

    fn fmt<W: fmt::Write>(&self, f: &mut fmt::Formatter<W>) -> fmt::Result {
        let offset = self.0.offset;
        let record = Shown(self.0.record);
        write!(f, "{offset} {record}")
    }
}
