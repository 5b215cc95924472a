// The calls that read a line.
ghost use Rattle.std.specs.Prelude.{◌≡◌};
ghost use Rattle.script.specs.MoreCalls.{reading_call_of};

// What a script can ask of a line's reading.
// Kept: an enum beside `Verb`, since what reads a line matches on these calls alone and needs no arm for others.
#[derive(Clone, Copy)]
pub enum ReadingCall {
    Read,
    ReadHex,
    Roles,
}

impl ReadingCall {
    // The call of a name.
    pub fn named(name: &[u8]) -> Option<ReadingCall>
        ensures { result ≡ reading_call_of name.now }
    {
        match name {
            b"read" => Some(ReadingCall::Read),
            b"readx" => Some(ReadingCall::ReadHex),
            b"roles" => Some(ReadingCall::Roles),
            _ => None,
        }
    }
}
