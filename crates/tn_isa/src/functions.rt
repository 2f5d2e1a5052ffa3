ghost use Rattle.std.specs.Prelude.{◌≡◌, ◌/◌};
ghost use Rattle.tn_isa.specs.Functions.{code_of, function_at};

/// The function of an instruction byte, which its high four bits name. The guide's table lists
/// the functions in this order.
#[derive(Clone, Copy, PartialEq, Eq)]
pub enum Fun {
    J,
    Ldlp,
    Pfix,
    Ldnl,
    Ldc,
    Ldnlp,
    Nfix,
    Ldl,
    Adc,
    Call,
    Cj,
    Ajw,
    Eqc,
    Stl,
    Stnl,
    Opr,
}

/// The function that the high four bits of an instruction byte name.
pub fn fun_of(byte: u8) -> Fun
    ensures code { code_of result ≡ byte / 16 }
    ensures value { result ≡ function_at (byte / 16) }
{
    match byte >> 4 {
        0x0 => Fun::J,
        0x1 => Fun::Ldlp,
        0x2 => Fun::Pfix,
        0x3 => Fun::Ldnl,
        0x4 => Fun::Ldc,
        0x5 => Fun::Ldnlp,
        0x6 => Fun::Nfix,
        0x7 => Fun::Ldl,
        0x8 => Fun::Adc,
        0x9 => Fun::Call,
        0xA => Fun::Cj,
        0xB => Fun::Ajw,
        0xC => Fun::Eqc,
        0xD => Fun::Stl,
        0xE => Fun::Stnl,
        _ => Fun::Opr,
    }
}

/// The code of a function, 0 to 15, as it stands in the high four bits of an instruction byte.
pub fn fun_code(f: Fun) -> u8
    ensures { result ≡ code_of f }
{
    match f {
        Fun::J => 0x0,
        Fun::Ldlp => 0x1,
        Fun::Pfix => 0x2,
        Fun::Ldnl => 0x3,
        Fun::Ldc => 0x4,
        Fun::Ldnlp => 0x5,
        Fun::Nfix => 0x6,
        Fun::Ldl => 0x7,
        Fun::Adc => 0x8,
        Fun::Call => 0x9,
        Fun::Cj => 0xA,
        Fun::Ajw => 0xB,
        Fun::Eqc => 0xC,
        Fun::Stl => 0xD,
        Fun::Stnl => 0xE,
        Fun::Opr => 0xF,
    }
}
