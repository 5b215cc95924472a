// Why a call has no answer of its own.
use refusal::Refusal;
use script::hex::HexFault;
use std::alloc::AllocError;

#[derive(Clone, Copy)]
pub enum Fault {
    Unknown,
    Malformed(&'static str),
    Refused(Refusal),
    NoMemory,
}

impl From<Refusal> for Fault {
    fn from(refusal: Refusal) -> Fault {
        Fault::Refused(refusal)
    }
}

impl From<HexFault> for Fault {
    fn from(fault: HexFault) -> Fault {
        match fault {
            HexFault::NotHex => Fault::Malformed("the bytes are pairs of hexadecimal digits"),
            HexFault::NoMemory => Fault::NoMemory,
        }
    }
}

impl From<AllocError> for Fault {
    fn from(_: AllocError) -> Fault {
        Fault::NoMemory
    }
}
