// Worked runs, a worked toll, and what no module allows.

ghost use Rattle.std.specs.Prelude.{◌≡◌, false, [], ◌∷◌, Some, None};
ghost use Rattle.ir_types.specs.declared.name.Name.TheVariants.{Number};
ghost use Rattle.ir_types.specs.declared.inst.Ty.TheVariants.{Ptr as PtrTy};
ghost use Rattle.ir_types.specs.declared.inst.Pred.TheVariants.{Eq, Ne, Ugt, Uge, Ult, Ule, Sgt, Sge, Slt, Sle};
ghost use Rattle.ir_types.specs.Tree.{null, poison, lanes};
ghost use Rattle.ir_making.specs.Trees.{i8x2, f};
ghost use Rattle.ir_meaning.specs.declared.value.Value.TheVariants.{Ptr, Poison, Lanes};
ghost use Rattle.ir_meaning.specs.Memory.{Memory};
ghost use Rattle.ir_meaning.specs.State.{World, set_value};
ghost use Rattle.ir_meaning.specs.Meaning.{null_pointer, step};
ghost use Rattle.ir_meaning.specs.Runs.{run, Undefined, Going};
ghost use Rattle.ir_meaning.specs.Allows.{Allows};
ghost use Rattle.ir_run_laws.specs.Tolls.{AllowsAtToll};
ghost use Rattle.ir_run_laws.specs.Examples.{int32, bit, of_i32, of_type, chooses, swapped, another_entry, loops, direct, detour, one_more, empty, adds, adds_with_flag, gives_back, reads_the_old, calls_g, g, frame_in, live_with, calls_outside, calls_declared, calls_smax, without_value, of_another_type, without_block, phi_at_the_start, phi_behind, without_entry, two_functions, two_parameters, two_blocks, two_entries, StandsStill, AllowsNone, Compares, Shows, ReturnsIn, one_value, calls_g_after};

/// Runs that are worked out, from any memory and any world. The first example of the README with 5 and false, with 5 and true, and with
/// 5 and poison; a sum that wraps; a phi that reads another one of its block; constants that are returned. And a call: its step leads to the
/// first block of the called function, with the caller's frame at the call; the return there leads behind the call; and what comes out.
#[tactic(auto, unfolding(ir_intrinsics::specs::Intrinsics::families, ir_intrinsics::specs::Intrinsics::lifetimes))]
pub fn worked_runs()
    ensures off { ReturnsIn chooses (int32 5 ∷ bit 0 ∷ []) 2 (of_i32 5) }
    ensures going { Shows chooses (int32 5 ∷ bit 1 ∷ []) 2 (Going []) }
    ensures on { ReturnsIn chooses (int32 5 ∷ bit 1 ∷ []) 3 (of_i32 7) }
    ensures poison { Shows chooses (int32 5 ∷ Poison ∷ []) 1 Undefined }
    ensures wraps { ReturnsIn (adds 4294967295 1) [] 2 (of_i32 0) }
    ensures null { ReturnsIn (gives_back PtrTy null) [] 1 (of_type PtrTy (Ptr null_pointer)) }
    ensures poison_lanes { ReturnsIn (gives_back i8x2 poison) [] 1
        (of_type i8x2 (Lanes 8 (None ∷ None ∷ []))) }
    ensures lanes { ReturnsIn (gives_back i8x2 (lanes (Some 255 ∷ None ∷ []))) [] 1
        (of_type i8x2 (Lanes 8 (Some 255 ∷ None ∷ []))) }
    ensures old { ReturnsIn reads_the_old [] 6 (of_i32 5) }
    ensures call { (memory : Memory) (v : World) → calls_g_after 1 memory v
        ≡ live_with (frame_in g 4 0 (one_value 3 5)) (frame_in f 1 0 (one_value 0 5) ∷ []) memory v }
    ensures back { (memory : Memory) (v : World) → calls_g_after 3 memory v
        ≡ live_with (frame_in f 1 1 (set_value (one_value 0 5) (Number 2) (int32 10))) [] memory v }
    ensures called { ReturnsIn calls_g (int32 5 ∷ []) 5 (of_i32 11) }
{}

/// Where no value of the type, no block or no entry is there, at a phi that no branch enters, and at an instruction without a meaning, a
/// run stands still; and so at a call of a function that isn't defined, and of a name with a meaning, even where the module has a body for
/// it. Of several functions, parameters, blocks or entries with one name the first counts.
#[tactic(auto, unfolding(ir_intrinsics::specs::Intrinsics::families, ir_intrinsics::specs::Intrinsics::lifetimes, ir_intrinsics::specs::Intrinsics::width_texts))]
pub fn worked_stops()
    ensures value { StandsStill without_value [] }
    ensures ty { StandsStill of_another_type (bit 1 ∷ []) }
    ensures lanes { StandsStill (gives_back i8x2 (lanes (Some 1 ∷ []))) [] }
    ensures flag { StandsStill (adds_with_flag 1 1) [] }
    ensures block { StandsStill without_block [] }
    ensures start { StandsStill phi_at_the_start [] }
    ensures behind { StandsStill phi_behind [] }
    ensures entry { StandsStill without_entry [] }
    ensures outside { StandsStill calls_outside (int32 5 ∷ []) }
    ensures declared { StandsStill calls_declared (int32 5 ∷ []) }
    ensures meaning { StandsStill calls_smax (int32 5 ∷ []) }
    ensures first_function { ReturnsIn two_functions [] 1 (of_i32 1) }
    ensures first_parameter { ReturnsIn two_parameters (int32 1 ∷ int32 2 ∷ []) 1 (of_i32 1) }
    ensures first_block { ReturnsIn two_blocks [] 2 (of_i32 1) }
    ensures first_entry { ReturnsIn two_entries [] 2 (of_i32 1) }
{}

/// Each predicate of each two of 0, 1, 2147483647, 2147483648 and 4294967295 as i32: a line for each first operand, with a 1 where
/// the predicate holds.
pub fn worked_comparisons()
    ensures eq { Compares Eq "10000" "01000" "00100" "00010" "00001" }
    ensures ne { Compares Ne "01111" "10111" "11011" "11101" "11110" }
    ensures ugt { Compares Ugt "00000" "10000" "11000" "11100" "11110" }
    ensures uge { Compares Uge "10000" "11000" "11100" "11110" "11111" }
    ensures ult { Compares Ult "01111" "00111" "00011" "00001" "00000" }
    ensures ule { Compares Ule "11111" "01111" "00111" "00011" "00001" }
    ensures sgt { Compares Sgt "00011" "10011" "11011" "00000" "00010" }
    ensures sge { Compares Sge "10011" "11011" "11111" "00010" "00011" }
    ensures slt { Compares Slt "01100" "00100" "00000" "11101" "11100" }
    ensures sle { Compares Sle "11100" "01100" "00100" "11111" "11101" }
{}

/// With no factor does the first example allow, as its printed module, the empty module, itself with the targets of its branch in each
/// other's place, itself with another number in an entry of its phi, or one whose first block loops for ever.
pub fn allows_no_other_module()
    ensures { AllowsNone chooses (empty ∷ swapped ∷ another_entry ∷ loops ∷ []) }
{}

/// A block put before another is allowed at a toll of one step for each entry of the other, with no block changed; and so with the factor 2.
/// With no charge it isn't.
pub fn worked_toll()
    ensures toll { AllowsAtToll direct detour (λ k. false) (one_more ∷ []) }
    ensures factor { Allows direct detour 2 }
    ensures needed { AllowsAtToll direct detour (λ k. false) [] → ⊥ }
{}
