// The services that an `ecall` can ask for.
ghost use Rattle.std.specs.Prelude.{◌≡◌};
ghost use Rattle.sc_mixed.specs.Serving as spec;

/// What an `ecall` asks for: a call, that a block is entered or left, a number's tag, a copy of bytes, that a call is left that gives no
/// value; or nothing that there is.
#[derive(Clone, Copy)]
pub enum Service {
    Call,
    Enter,
    Leave,
    Tag,
    Copy,
    Fall,
    Unknown,
}

/// The service with a number.
pub fn service_of(n: u32) -> Service
    ensures { result ≡ spec.service n }
{
    if n == 1 {
        Service::Call
    } else if n == 2 {
        Service::Enter
    } else if n == 3 {
        Service::Leave
    } else if n == 4 {
        Service::Tag
    } else if n == 5 {
        Service::Copy
    } else if n == 6 {
        Service::Fall
    } else {
        Service::Unknown
    }
}
