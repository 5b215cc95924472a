// The counts of an order.
ghost use Rattle.std.specs.Prelude.{◌≡◌};
ghost use Rattle.reading.specs.Model.{tally};
ghost use Rattle.reader.specs.Signatures.{parameters_of};
ghost use Rattle.reader.specs.Meaning.{values_of};
ghost use Rattle.reader.specs.Counts.{fault_of};

use crate::invocation::Invocation;
use crate::signature::Signature;
use judge::Judge;
use refusal::Refusal;
use register::register::Register;

impl Invocation {
    // Whether nothing is missing and the values keep their rules.
    pub fn check<R: Register, J: Judge>(
        &self,
        signature: &Signature<'_, R>,
        judge: &J,
        bytes: &[u8],
    ) -> Result<(), Refusal>
        ensures { fault_of result ≡ tally (parameters_of R.Register.signatures signature.now) (J.Judge.accepts judge.now) (values_of bytes.now self.now.values) self.now.plains }
    {
        self.values.check(signature, judge, bytes, self.plains)
    }
}
