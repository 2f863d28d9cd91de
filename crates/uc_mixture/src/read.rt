//! The mixture of a file.
ghost use Rattle.std.specs.Prelude.{◌≡◌, ◌≤◌, Result, IfOk, length};
ghost use Rattle.gap_proof.specs.Mixtures.{MixtureLists, mixture_of, HasMixtureShape};
ghost use Rattle.plain_lists.specs.declared.limits.TheConstants.{MOST_BYTES};
ghost use Rattle.uc_text.specs.Files.{FileFault};
ghost use Rattle.uc_model.specs.PlainCases.{market_of};
ghost use Rattle.uc_mixture.specs.MixtureFiles.{IsMixtureFileOf, IfRead};
ghost use Rattle.uc_mixture.specs.declared.fault.ShareFault.{ShareFault as PlainFault};

use crate::fault::MixtureFault;
use crate::laws::mixture_file_has_one_value_or_one_fault;
use crate::mixtures::mixture_of_json_tree;
use gap_proof::Mixture;
use std::alloc::Global;
use uc_model::cases::Case;
use uc_text::stop::Stop;
use uc_text::{TextError, read_tree};

/// The mixture of a file for a case: its whole, from 1 to 10^12, and for each thermal unit by its
/// name, in any order, entries: a whole weight from 0, and a schedule in whole kilowatts. The
/// weights of a unit's entries sum to the whole. Whether the schedules are feasible isn't tried.
///
/// Refuses a file that isn't a JSON text with the first fault of the text. Else refuses with the
/// first test that fails: the outermost value, its weight, names that aren't in the case, and then
/// each thermal unit in the order of the case, entry by entry, and last the sum of its weights.
pub fn read_mixture(alloc: Global, case: &Case, bytes: &[u8]) -> Result<Mixture, MixtureFault>
    requires { length bytes.now ≤ MOST_BYTES }
    // For each thermal unit weights that sum to the whole, and schedules over the horizon.
    ensures shape { IfOk result (λ x. HasMixtureShape (market_of case.now) (mixture_of x)) }
    // The answer is what the file is.
    ensures answer { IfRead mixture_of result
        (λ r. IsMixtureFileOf (market_of case.now) bytes.now r) }
    // What the file is, is answered.
    ensures only { (r : Result MixtureLists (FileFault PlainFault))
        → IsMixtureFileOf (market_of case.now) bytes.now r
        → IfRead mixture_of result (λ s. s ≡ r) }
{
    mixture_file_has_one_value_or_one_fault();
    mixture_of_bytes(alloc, case, bytes)
}

fn mixture_of_bytes(alloc: Global, case: &Case, bytes: &[u8]) -> Result<Mixture, MixtureFault>
    requires { length bytes.now ≤ MOST_BYTES }
    ensures shape { IfOk result (λ x. HasMixtureShape (market_of case.now) (mixture_of x)) }
    ensures answer { IfRead mixture_of result
        (λ r. IsMixtureFileOf (market_of case.now) bytes.now r) }
{
    let tree = match read_tree(alloc, bytes) {
        Ok(tree) => tree,
        Err(TextError::Fault(fault)) => return Err(MixtureFault::Text(fault)),
        Err(TextError::Memory) => return Err(MixtureFault::Memory),
    };
    match mixture_of_json_tree(alloc, case, tree.root()) {
        Ok(mixture) => Ok(mixture),
        Err(Stop::Fault(fault)) => Err(MixtureFault::Share(fault)),
        Err(Stop::Memory) => Err(MixtureFault::Memory),
    }
}
