// Labels: those of branches, of the entries of a phi and of the cases of a switch.

ghost use Rattle.std.specs.Prelude.{◌≡◌, ◌<◌, ◌∷◌, [], suc, length};
ghost use Rattle.std.specs.List.{AllByRecursion};
ghost use Rattle.ir_types.specs.Denotes.{name_in};
ghost use Rattle.ir_shape.specs.Shape.{IsOneOf, widths, IsName, IsBelow, IsTyped};
ghost use Rattle.ir_printer_types.specs.Appends.{Prints};
ghost use Rattle.ir_printer_types.specs.Pieces.{with_commas, each_behind};
ghost use Rattle.ir_printer.specs.Trees.{operand_of, operands_of, labels_of};
ghost use Rattle.ir_printer.specs.Print.{target_pieces, targets_pieces, entry_pieces, entries_of, before_case, case_pieces, cases_of, switch_pieces};

use crate::value::{put_comma, put_operand, put_signed};
use ir_printer_types::types::{put_local, put_width};
use ir_types::{Module, Names, Operand, Ty, ValueId};
use std::alloc::AllocError;

fn put_target(out: &mut Vec<u8>, names: &Names, label: ValueId) -> Result<(), AllocError>
    requires { IsName (name_in names.now label) }
    ensures { Prints out.old out.new result (target_pieces (name_in names.now label)) }
{
    out.extend_from_slice(b"label ")?;
    put_local(out, names, label)
}

/// Appends labels with commas between them.
pub(crate) fn put_targets(
    out: &mut Vec<u8>,
    names: &Names,
    labels: &[ValueId],
) -> Result<(), AllocError>
    requires { AllByRecursion IsName (labels_of names.now labels.now) }
    ensures { Prints out.old out.new result (targets_pieces (labels_of names.now labels.now)) }
{
    for (place, label) in labels.iter().enumerate() {
        put_comma(out, place)?;
        put_target(out, names, *label)?;
    }
    Ok(())
}

#[tactic(auto, using(ir_printer_types::proofs::Appended::text_of_both, std::proofs::lemmas::Grind::common_steps))]
fn put_entry(
    out: &mut Vec<u8>,
    m: &Module,
    names: &Names,
    ty: Ty,
    operand: &Operand,
    label: ValueId,
) -> Result<(), AllocError>
    requires operand { IsTyped ty (operand_of m.now names.now operand.now) }
    requires label { IsName (name_in names.now label) }
    ensures { Prints out.old out.new result
        (entry_pieces ty (operand_of m.now names.now operand.now) (name_in names.now label)) }
{
    out.extend_from_slice(b"[ ")?;
    put_operand(out, m, names, ty, operand)?;
    out.extend_from_slice(b", ")?;
    put_local(out, names, label)?;
    out.extend_from_slice(b" ]")
}

/// Appends the entries of a phi with commas between them.
pub(crate) fn put_entries(
    out: &mut Vec<u8>,
    m: &Module,
    names: &Names,
    ty: Ty,
    operands: &[Operand],
    labels: &[ValueId],
) -> Result<(), AllocError>
    requires operands { AllByRecursion (IsTyped ty) (operands_of m.now names.now operands.now) }
    requires labels { AllByRecursion IsName (labels_of names.now labels.now) }
    requires pairs { length operands.now ≡ length labels.now }
    ensures { Prints out.old out.new result
        (with_commas (entries_of ty (operands_of m.now names.now operands.now)
        (labels_of names.now labels.now))) }
{
    for (place, operand) in operands.iter().enumerate() {
        put_comma(out, place)?;
        put_entry(out, m, names, ty, operand, labels[place])?;
    }
    Ok(())
}

#[tactic(auto, using(ir_printer_types::proofs::Widths::width_within))]
fn put_case(
    out: &mut Vec<u8>,
    names: &Names,
    width: u32,
    number: u64,
    label: ValueId,
) -> Result<(), AllocError>
    requires width { IsOneOf widths width }
    requires number { IsBelow width number }
    requires label { IsName (name_in names.now label) }
    ensures { Prints out.old out.new result (case_pieces width number (name_in names.now label)) }
{
    put_width(out, width)?;
    out.push(b' ')?;
    put_signed(out, width, number)?;
    out.extend_from_slice(b", ")?;
    put_target(out, names, label)
}

// Appends the cases of a switch, each on a line of its own.
fn put_cases(
    out: &mut Vec<u8>,
    names: &Names,
    width: u32,
    numbers: &[u64],
    labels: &[ValueId],
) -> Result<(), AllocError>
    requires width { IsOneOf widths width }
    requires numbers { AllByRecursion (IsBelow width) numbers.now }
    requires labels { AllByRecursion IsName (labels_of names.now labels.now) }
    requires pairs { length labels.now ≡ length numbers.now }
    ensures { Prints out.old out.new result
        (each_behind (before_case ∷ []) (cases_of width numbers.now
        (labels_of names.now labels.now))) }
{
    for (place, number) in numbers.iter().enumerate() {
        out.extend_from_slice(b"\n    ")?;
        put_case(out, names, width, *number, labels[place])?;
    }
    Ok(())
}

/// Appends the labels of a switch: the default's and those of its cases.
#[tactic(auto, using(ir_printer_types::proofs::Appended::text_of_both, std::proofs::lemmas::Grind::common_steps))]
pub(crate) fn put_switch(
    out: &mut Vec<u8>,
    names: &Names,
    width: u32,
    numbers: &[u64],
    labels: &[ValueId],
) -> Result<(), AllocError>
    requires width { IsOneOf widths width }
    requires numbers { AllByRecursion (IsBelow width) numbers.now }
    requires labels { AllByRecursion IsName (labels_of names.now labels.now) }
    requires pairs { length labels.now ≡ suc (length numbers.now) }
    ensures { Prints out.old out.new result
        (switch_pieces width numbers.now (labels_of names.now labels.now)) }
{
    let [default, labels @ ..] = labels else {
        return Ok(());
    };
    out.extend_from_slice(b", ")?;
    put_target(out, names, *default)?;
    out.extend_from_slice(b" [")?;
    put_cases(out, names, width, numbers, labels)?;
    out.extend_from_slice(b"\n  ]")
}
