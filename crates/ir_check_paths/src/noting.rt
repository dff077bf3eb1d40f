// Notes what the names of a function are given to.
ghost use Rattle.std.specs.Prelude.{◌≡◌, ◌<◌, IfOk, IfSome, length};
ghost use Rattle.std.specs.List.{All};
ghost use Rattle.ir_check_paths.specs.Setting.{results_set, params_set};
ghost use Rattle.ir_check_paths.specs.Known.{IsReady, AreOrigins};

use crate::origins::Origin;
use ir_types::{Function, Inst, Param};
use std::alloc::{AllocError, Global};

/// For each name of a function's table what it is given to.
pub fn origins_of(alloc: Global, function: &Function) -> Result<Vec<Origin>, AllocError>
    requires { IsReady function.now }
    ensures { IfOk result (λ origins. AreOrigins function.now origins.items) }
{
    let mut origins = vec![in alloc; Origin::Unknown; function.names.len()]?;
    for (number, block) in function.body.as_slice().iter().enumerate() {
        set_results(&mut origins, number, block.insts.as_slice());
    }
    set_params(&mut origins, function.params.as_slice());
    Ok(origins)
}

/// Notes the results of a block's instructions.
fn set_results(origins: &mut Vec<Origin>, block: usize, insts: &[Inst])
    requires { All (λ i. IfSome i.result (λ v. v.0 < length origins.old.items)) insts.now }
    ensures { origins.new.items ≡ results_set block 0 insts.now origins.old.items }
{
    for (place, inst) in insts.iter().enumerate() {
        if let Some(name) = inst.result {
            origins[name.0 as usize] = Origin::Result(block, place);
        }
    }
}

/// Notes parameters.
fn set_params(origins: &mut Vec<Origin>, params: &[Param])
    requires { All (λ p. p.name.0 < length origins.old.items) params.now }
    ensures { origins.new.items ≡ params_set params.now origins.old.items }
{
    for param in params {
        origins[param.name.0 as usize] = Origin::Parameter;
    }
}
