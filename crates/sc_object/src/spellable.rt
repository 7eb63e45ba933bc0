// Which objects have a file.
ghost use Rattle.std.specs.Prelude.{◌≡◌};
ghost use Rattle.sc_object.specs.Reading.{is_kind};

/// Whether a relocation's type is R_RISCV_32, R_RISCV_CALL_PLT, R_RISCV_HI20, R_RISCV_LO12_I or R_RISCV_LO12_S.
pub fn is_kind(n: u8) -> bool
    ensures { result ≡ is_kind n }
{
    n == 1 || n == 19 || n == 26 || n == 27 || n == 28
}
