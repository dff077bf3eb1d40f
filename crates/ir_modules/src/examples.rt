// A module that is made by code.

ghost use Rattle.std.specs.Prelude.{◌≡◌, ◌∷◌, [], IfOk, List};
ghost use Rattle.ir_types.specs.declared.inst.BinOp.TheVariants.{Add};
ghost use Rattle.ir_shape.specs.Modules.{IsModule};
ghost use Rattle.ir_modules.specs.Examples.{three_names, counted_by, gives_third, of_insts, symbol_for, example};

use ir_making::{applied, binary, one_operand};
use ir_types::{
    BinOp, Block, Flags, FuncId, Function, Inst, InstKind, Module, Name, Names, Operand, Param,
    Symbol, SymbolKind, Ty, ValueId,
};
use lists::{Items, Text, Texts};
use std::alloc::{AllocError, Global};

const I32: Ty = Ty::Int(32);

const NO_FLAGS: Flags = Flags {
    nuw: false,
    nsw: false,
    exact: false,
    disjoint: false,
};

fn names(alloc: Global) -> Result<Names, AllocError>
    ensures { IfOk result (λ names. names ≡ three_names) }
{
    let mut names = Names::new(alloc);
    names.add(Name::Number(0))?;
    names.add(Name::Number(1))?;
    names.add(Name::Number(2))?;
    Ok(names)
}

fn insts(alloc: Global) -> Result<Items<Inst>, AllocError>
    ensures { IfOk result (λ insts. insts ≡ counted_by Add ∷ gives_third ∷ []) }
{
    let parameter = Operand::Local(ValueId(0));
    let sum = binary(alloc, BinOp::Add, NO_FLAGS, I32, parameter, Operand::Int(1))?;
    let value = one_operand(alloc, Operand::Local(ValueId(2)))?;
    let insts = vec![in alloc;
        Inst {
            result: Some(ValueId(2)),
            ..sum
        },
        applied(alloc, InstKind::Return(I32), Ty::Void, value),
    ]?;
    Ok(Items::from_vec(insts))
}

fn function(alloc: Global) -> Result<Function, AllocError>
    ensures { IfOk result (λ function. function ≡ of_insts three_names (counted_by Add ∷ gives_third ∷ [])) }
{
    let param = Param {
        ty: I32,
        kept: Texts::new(alloc),
        name: ValueId(0),
    };
    let block = Block {
        name: ValueId(1),
        insts: insts(alloc)?,
    };
    Ok(Function {
        name: Name::Text(Text::from_slice(alloc, b"f")?),
        before: Texts::new(alloc),
        ret: I32,
        params: Items::from_vec(vec![in alloc; param]?),
        varargs: false,
        after: Texts::new(alloc),
        body: Items::from_vec(vec![in alloc; block]?),
        names: names(alloc)?,
    })
}

fn symbol(alloc: Global) -> Result<Symbol, AllocError>
    ensures { IfOk result (λ symbol. symbol ≡ symbol_for 0) }
{
    Ok(Symbol {
        name: Name::Text(Text::from_slice(alloc, b"f")?),
        kind: SymbolKind::Function(FuncId(0)),
        before: Texts::new(alloc),
        after: Texts::new(alloc),
    })
}

/// The module `define i32 @f(i32 %0) { 1: %2 = add i32 %0, 1  ret i32 %2 }`.
///
/// # Errors
///
/// Where there is no room for it.
#[tactic(auto, using(crate::proofs::Worked::example_is))]
pub fn made(alloc: Global) -> Result<Module, AllocError>
    ensures is { IfOk result (λ m. m ≡ example) }
    ensures is_module { IfOk result IsModule }
{
    Ok(Module {
        head: Items::from_vec(Vec::new(alloc)),
        types: Items::from_vec(Vec::new(alloc)),
        extents: Items::from_vec(Vec::new(alloc)),
        type_names: Items::from_vec(Vec::new(alloc)),
        symbols: Items::from_vec(vec![in alloc; symbol(alloc)?]?),
        functions: Items::from_vec(vec![in alloc; function(alloc)?]?),
        tail: Items::from_vec(Vec::new(alloc)),
    })
}
