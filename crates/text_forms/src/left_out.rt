// Words that are left out of the language, wherever they stand.

ghost use Rattle.std.specs.Prelude.{◌≡◌, map};
ghost use Rattle.text_forms.specs.LeftOut.{left_out_words};

static LEFT_OUT_WORDS: [&[u8]; 62] = [
    b"half",
    b"bfloat",
    b"float",
    b"double",
    b"fp128",
    b"x86_fp80",
    b"ppc_fp128",
    b"x86_mmx",
    b"x86_amx",
    b"token",
    b"metadata",
    b"undef",
    b"volatile",
    b"atomic",
    b"cmpxchg",
    b"atomicrmw",
    b"fence",
    b"invoke",
    b"landingpad",
    b"resume",
    b"catchswitch",
    b"catchpad",
    b"cleanuppad",
    b"catchret",
    b"cleanupret",
    b"callbr",
    b"indirectbr",
    b"inttoptr",
    b"bitcast",
    b"addrspace",
    b"addrspacecast",
    b"vscale",
    b"extractvalue",
    b"insertvalue",
    b"va_arg",
    b"fadd",
    b"fsub",
    b"fmul",
    b"fdiv",
    b"frem",
    b"fneg",
    b"fcmp",
    b"fptrunc",
    b"fpext",
    b"fptoui",
    b"fptosi",
    b"uitofp",
    b"sitofp",
    b"blockaddress",
    b"dso_local_equivalent",
    b"no_cfi",
    b"ifunc",
    b"alias",
    b"asm",
    b"samesign",
    b"inrange",
    b"personality",
    b"byval",
    b"inalloca",
    b"preallocated",
    b"module",
    b"alloca",
];

/// The words of types, constants, instructions and attributes that are left out of the language.
#[tactic(auto, unfolding(crate::specs::LeftOut::left_out_words))]
pub fn left_out_words() -> &'static [&'static [u8]]
    ensures { map (λ w. w.now) result.now ≡ left_out_words }
{
    &LEFT_OUT_WORDS
}
