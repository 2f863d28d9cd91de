//! The case of a file.
ghost use Rattle.std.specs.Prelude.{◌≡◌, ◌≤◌, Result, length};
ghost use Rattle.uc_model.specs.Data.{Market};
ghost use Rattle.uc_model.specs.PlainCases.{market_of};
ghost use Rattle.plain_lists.specs.declared.limits.TheConstants.{MOST_BYTES};
ghost use Rattle.uc_case.specs.CaseFiles.{IsCaseOf, IfRead};
ghost use Rattle.uc_text.specs.Files.{FileFault};
ghost use Rattle.uc_field.specs.declared.fault.FieldFault.{FieldFault as PlainFault};

use crate::cases::case_of_json_tree;
use crate::fault::CaseFault;
use crate::laws::case_file_has_one_value_or_one_fault;
use std::alloc::Global;
use uc_model::cases::Case;
use uc_text::stop::Stop;
use uc_text::{TextError, read_tree};

/// The case of a file, as pglib-uc has it, with `commitment` lists and `demand_bids`. Powers are
/// read in megawatts and kept in kilowatts, costs in the currency and kept in its millionths, each
/// rounded to the nearest whole number.
///
/// Refuses a file that isn't a JSON text with the first fault of the text. Else refuses with the
/// first test that fails, in the order of the tables: the keys of the case, the thermal units in
/// file order, the renewable ones, the bids, and last that there is a unit.
pub fn read_case(alloc: Global, bytes: &[u8]) -> Result<Case, CaseFault>
    requires { length bytes.now ≤ MOST_BYTES }
    // The answer is what the file is.
    ensures answer { IfRead market_of result (λ r. IsCaseOf bytes.now r) }
    // What the file is, is answered.
    ensures only { (r : Result Market (FileFault PlainFault)) → IsCaseOf bytes.now r
        → IfRead market_of result (λ s. s ≡ r) }
{
    case_file_has_one_value_or_one_fault();
    case_of_bytes(alloc, bytes)
}

fn case_of_bytes(alloc: Global, bytes: &[u8]) -> Result<Case, CaseFault>
    requires { length bytes.now ≤ MOST_BYTES }
    ensures { IfRead market_of result (λ r. IsCaseOf bytes.now r) }
{
    let tree = match read_tree(alloc, bytes) {
        Ok(tree) => tree,
        Err(TextError::Fault(fault)) => return Err(CaseFault::Text(fault)),
        Err(TextError::Memory) => return Err(CaseFault::Memory),
    };
    match case_of_json_tree(alloc, tree.root()) {
        Ok(case) => Ok(case),
        Err(Stop::Fault(fault)) => Err(CaseFault::Field(fault)),
        Err(Stop::Memory) => Err(CaseFault::Memory),
    }
}
