// The witnesses that a task makes.
ghost use Rattle.std.specs.Prelude.{◌≡◌, map, IfOk};
ghost use Rattle.posting.specs.Comparison.{comparison_meaning};
ghost use Rattle.witness.specs.Witnesses.{answer_meaning, transcript_meaning, disjunction_meaning, equivalence_meaning, disjunctive_meaning};
ghost use Rattle.drillserver.specs.Answering.{proved_branch, draw_place, posted_z, next_challenges, made_challenges, made_answer, parts_beside, proved_transcript, simulated_transcript, made_disjunction, made_equivalence_witness, made_disjunctive_witness, made_equivalence_witnesses, made_disjunctive_witnesses};

use crate::knowledge::{branch_gamma, product_gamma};
use crate::task::{Fault, Outputs, Task, word_of};
use equivalence::equation::{fold_key, fold_quotient};
use group::{Exponent, Group};
use plan::Setting;
use posting::comparison::Comparison;
use std::alloc::{AllocError, Global};
use witness::posted::{
    Answer, Challenges, Disjunction, PostedDisjunctiveWitness, PostedEquivalenceWitness,
    Transcript, Witness,
};

// The answer to a challenge, from the commitment's exponent.
fn answer_to<X: Exponent>(e: X, gamma: X, challenge: u64) -> Answer<X::Posted>
    ensures { answer_meaning X.Exponent.number result ≡ made_answer X.Exponent.exponents (X.Exponent.value e) (X.Exponent.value gamma) challenge }
{
    Answer {
        challenge,
        exponent: e.add(gamma.multiply(X::from_word(challenge))).post(),
    }
}

// A transcript of one who knows the exponent.
fn prove<G: Group>(
    g: &G,
    folded: G::Element,
    gamma: G::Exponent,
    e: G::Exponent,
    challenges: Challenges,
) -> Transcript<G::Element, <G::Exponent as Exponent>::Posted>
    ensures { transcript_meaning G.Group.point G.Exponent.Exponent.number result ≡ proved_transcript G.Group.operations G.Exponent.Exponent.exponents (G.Group.point folded) (G.Exponent.Exponent.value gamma) (G.Exponent.Exponent.value e) challenges }
{
    Transcript {
        commitment: g.raise(folded, e),
        first: answer_to(e, gamma, challenges.first),
        second: answer_to(e, gamma, challenges.second),
    }
}

// A transcript of one who picked the challenge: both answers are the same.
fn simulate<G: Group>(
    g: &G,
    folded: G::Element,
    quotient: G::Element,
    s: G::Exponent,
    c: u64,
) -> Transcript<G::Element, <G::Exponent as Exponent>::Posted>
    ensures { transcript_meaning G.Group.point G.Exponent.Exponent.number result ≡ simulated_transcript G.Group.operations (G.Group.point folded) (G.Group.point quotient) (G.Exponent.Exponent.value s) c }
{
    let answer = Answer {
        challenge: c,
        exponent: s.post(),
    };
    let inverse = g.invert(g.raise_word(quotient, c));
    Transcript {
        commitment: g.multiply(g.raise(folded, s), inverse),
        first: answer,
        second: answer,
    }
}

// The challenges of a word: of it and of the next.
fn challenges_of<X: Exponent>(word: u64) -> Challenges
    ensures { result ≡ next_challenges X.Exponent.exponents word }
{
    Challenges {
        first: X::challenge(word),
        second: X::challenge(word_of(word, 1)),
    }
}

// The parts of the challenges that the proved branch has, where the other has c.
fn parts_of(challenges: Challenges, c: u64) -> Challenges
    ensures { result ≡ parts_beside c challenges }
{
    Challenges {
        first: challenges.first ^ c,
        second: challenges.second ^ c,
    }
}

impl Fault {
    // The place that an equivalence witness draws for: the first for all, where the fault is that.
    fn place(self, j: u64) -> u64
        ensures { result ≡ draw_place self j }
    {
        match self {
            Fault::EqualDraws => 0,
            _ => j,
        }
    }

    // The number that an equivalence witness posts for its z: the order for the last, where the fault is that.
    fn post_z<X: Exponent>(self, j: u64, z: X) -> X::Posted
        ensures { X.Exponent.number result ≡ posted_z X.Exponent.exponents self j (X.Exponent.value z) }
    {
        match self {
            Fault::UnfitNumber if j == 2 => X::order(),
            _ => z.post(),
        }
    }

    // The challenges of both answers of a disjunctive witness.
    fn challenges<X: Exponent>(self, word: u64) -> Challenges
        ensures { result ≡ made_challenges X.Exponent.exponents self word }
    {
        let challenges = challenges_of::<X>(word);
        match self {
            Fault::EqualChallenges => Challenges {
                second: challenges.first,
                ..challenges
            },
            _ => challenges,
        }
    }
}

impl Outputs {
    // The branch that is proved: that of the output made from the first input. No From: it is one fact about the outputs.
    fn branch(self) -> Setting
        ensures { result ≡ proved_branch self }
    {
        match self {
            Outputs::Swapped => Setting::Swapped,
            _ => Setting::Straight,
        }
    }
}

// A comparator in a group, and the task by which its witnesses are made.
#[derive(Drop)]
pub struct Maker<'a, G: Group> {
    pub g: &'a G,
    pub comparison: Comparison<G::Element>,
    pub task: Task,
}

impl<G: Group> Maker<'_, G> {
    // The branch of the first input's output proved, the other simulated for the challenge `other`.
    fn disjunction(
        &self,
        z: G::Exponent,
        gamma: G::Exponent,
        challenges: Challenges,
        other: u64,
    ) -> Disjunction<G::Element, <G::Exponent as Exponent>::Posted>
        ensures { disjunction_meaning G.Group.point G.Exponent.Exponent.number result ≡ made_disjunction G.Group.operations G.Exponent.Exponent.exponents (comparison_meaning G.Group.point self.now.comparison) (proved_branch self.now.task.kind.outputs) (G.Exponent.Exponent.value z) (G.Exponent.Exponent.value gamma) challenges other }
    {
        let g = self.g;
        let Comparison {
            key,
            inputs,
            outputs,
        } = self.comparison;
        let folded = fold_key(g, key, z);
        let proved = prove(g, folded, gamma, z.add(gamma), parts_of(challenges, other));
        match self.task.kind.outputs.branch() {
            Setting::Straight => {
                let quotient = fold_quotient(g, inputs.first, outputs.second, z);
                Disjunction {
                    challenges,
                    straight: proved,
                    swapped: simulate(g, folded, quotient, z, other),
                }
            }
            Setting::Swapped => {
                let quotient = fold_quotient(g, inputs.first, outputs.first, z);
                Disjunction {
                    challenges,
                    straight: simulate(g, folded, quotient, z, other),
                    swapped: proved,
                }
            }
        }
    }

    // The j-th witness of the equivalence proof.
    #[tactic(auto, unfolding(crate::specs::Answering::made_equivalence_witness))]
    fn equivalence_witness(&self, j: u64) -> PostedEquivalenceWitness<G>
        ensures { equivalence_meaning G.Group.point G.Exponent.Exponent.number result ≡ made_equivalence_witness G.Group.operations G.Exponent.Exponent.exponents (G.Group.point self.now.comparison.key) self.now.task j }
    {
        let task = self.task;
        let word = word_of(task.seed, task.kind.fault.place(j));
        let z = G::Exponent::from_word(word);
        let gamma = product_gamma(task, z);
        let folded = fold_key(self.g, self.comparison.key, z);
        let challenges = challenges_of::<G::Exponent>(word);
        Witness {
            z: task.kind.fault.post_z(j, z),
            answered: prove(self.g, folded, gamma, z.add(gamma), challenges),
        }
    }

    // The j-th witness of the disjunctive proof.
    #[tactic(auto, unfolding(crate::specs::Answering::made_disjunctive_witness))]
    fn disjunctive_witness(&self, j: u64) -> PostedDisjunctiveWitness<G>
        ensures { disjunctive_meaning G.Group.point G.Exponent.Exponent.number result ≡ made_disjunctive_witness G.Group.operations G.Exponent.Exponent.exponents (comparison_meaning G.Group.point self.now.comparison) self.now.task j }
    {
        let task = self.task;
        let word = word_of(task.seed, j);
        let z = G::Exponent::from_word(word);
        let gamma = branch_gamma(task, z);
        let challenges = task.kind.fault.challenges::<G::Exponent>(word);
        let other = G::Exponent::challenge(word_of(word, 3));
        Witness {
            z: z.post(),
            answered: self.disjunction(z, gamma, challenges, other),
        }
    }

    // The witnesses of the equivalence proof.
    pub(crate) fn equivalence_witnesses(
        &self,
        heap: Global,
    ) -> Result<Vec<PostedEquivalenceWitness<G>>, AllocError>
        ensures { IfOk result (λ v. map (equivalence_meaning G.Group.point G.Exponent.Exponent.number) v.items ≡ made_equivalence_witnesses G.Group.operations G.Exponent.Exponent.exponents (G.Group.point self.now.comparison.key) self.now.task) }
    {
        (0..3).map(|j| self.equivalence_witness(j)).collect(heap)
    }

    // The witnesses of the disjunctive proof.
    pub(crate) fn disjunctive_witnesses(
        &self,
        heap: Global,
    ) -> Result<Vec<PostedDisjunctiveWitness<G>>, AllocError>
        ensures { IfOk result (λ v. map (disjunctive_meaning G.Group.point G.Exponent.Exponent.number) v.items ≡ made_disjunctive_witnesses G.Group.operations G.Exponent.Exponent.exponents (comparison_meaning G.Group.point self.now.comparison) self.now.task) }
    {
        (0..5).map(|j| self.disjunctive_witness(j)).collect(heap)
    }
}
