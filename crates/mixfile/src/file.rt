// A server's turn on a whole file.
ghost use Rattle.std.specs.Prelude.{◌≡◌, length, MatchResult};
ghost use Rattle.mixfile.specs.Mixing.{Mixed, Unmixed};
ghost use Rattle.clearing.specs.Zeros.{zeros};
ghost use Rattle.roundcheck.specs.Finishing.{IfRefused};

use crate::turn::Turn;
use clearing::Clearing;
use refusal::Failure;
use roundcheck::round::finish_file;
use std::alloc::Global;

// Serves the turn that begins where the file ends: the file with a record for each comparator behind it, or the
// refusal. The secret words, six for each comparator, end as zeros.
pub fn mix_file<'a>(
    heap: Global,
    file: &'a [u8],
    permutation: &'a [usize],
    words: &mut [u64],
) -> Result<Vec<u8>, Failure>
    ensures mixed { MatchResult result
        (λ out. Mixed file.now permutation.now (length words.old) out.items)
        (λ failure. IfRefused failure (Unmixed file.now permutation.now (length words.old))) }
    ensures cleared { words.new ≡ zeros 0 words.old }
{
    let words = Clearing { places: words };
    let turn = Turn {
        file,
        permutation,
        words: words.places,
    };
    Ok(finish_file(heap, file, Vec::new(heap), turn)?.ending?)
}
