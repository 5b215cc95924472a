// The calls on a console.
ghost use Rattle.std.specs.Prelude.{◌≡◌};
ghost use Rattle.script.specs.MoreCalls.{console_call_of};

// What a script can ask of a console.
// Kept: an enum beside `Verb`, since the program has no console, and its matches need no arm for these calls.
#[derive(Clone, Copy)]
pub enum ConsoleCall {
    Admit,
    AdmitHex,
    Issue,
    Acknowledge,
    Lost,
    Withdraw,
    Status,
    Readback,
}

impl ConsoleCall {
    // The call of a name.
    pub fn named(name: &[u8]) -> Option<ConsoleCall>
        ensures { result ≡ console_call_of name.now }
    {
        match name {
            b"admit" => Some(ConsoleCall::Admit),
            b"admitx" => Some(ConsoleCall::AdmitHex),
            b"issue" => Some(ConsoleCall::Issue),
            b"ack" => Some(ConsoleCall::Acknowledge),
            b"lost" => Some(ConsoleCall::Lost),
            b"withdraw" => Some(ConsoleCall::Withdraw),
            b"status" => Some(ConsoleCall::Status),
            b"readback" => Some(ConsoleCall::Readback),
            _ => None,
        }
    }
}
