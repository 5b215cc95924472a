use register::parameter::Parameter;

// A parameter that a switch calls, with its place.
#[derive(Clone, Copy)]
pub struct Called {
    pub place: usize,
    pub parameter: Parameter,
}
