// What a walk over a filter asks of a visitor.
ghost use Rattle.std.specs.Prelude.{◌≡◌, List};
ghost use Rattle.filters.specs.Meanings.{Meaning};
ghost use Rattle.walk.specs.declared.faults.Fault.{Fault};
ghost use Rattle.walk.specs.Tests.{Tested, tested};

use crate::conditions::Test;
use crate::faults::Fault;

pub trait Visitor {
    type Answer: Copy;

    // The answer or the fault for each constant, each bound condition, and the joins and the Not of answers.
    ghost meaning: { Self → Meaning Self.Answer Fault Tested };

    fn constant(&self, value: bool) -> Result<Self::Answer, Fault>
        ensures is_as_meant { result ≡ (meaning self.now).always value };

    fn condition(&self, test: &Test) -> Result<Self::Answer, Fault>
        ensures is_as_meant { result ≡ (meaning self.now).on (tested test.now) };

    fn and(&self, left: Self::Answer, right: Self::Answer) -> Result<Self::Answer, Fault>
        ensures is_as_meant { result ≡ (meaning self.now).both left right };

    fn or(&self, left: Self::Answer, right: Self::Answer) -> Result<Self::Answer, Fault>
        ensures is_as_meant { result ≡ (meaning self.now).either left right };

    fn not(&self, answer: Self::Answer) -> Result<Self::Answer, Fault>
        ensures is_as_meant { result ≡ (meaning self.now).other answer };
}
