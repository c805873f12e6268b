// The answer of a call in the fields after it: `answer=refused number=9`, or `answer=` another name with fields of its own.
ghost use Rattle.std.specs.Prelude.{◌≡◌};
ghost use Rattle.harness.specs.Answers.{tells_refusal, refuses_by, answer_fits};

use crate::{fields, form};

#[tactic(auto, unfolding(crate::specs::Answers::tells_refusal))]
pub fn is_refused(fields: &[u8]) -> bool
    ensures { result ≡ tells_refusal fields.now }
{
    fields::is(fields, b"answer", b"refused")
}

// Whether the call is refused with this number.
#[tactic(auto, unfolding(crate::specs::Answers::refuses_by))]
pub fn refuses(fields: &[u8], number: u16) -> bool
    ensures { result ≡ refuses_by fields.now number }
{
    is_refused(fields) & (fields::number(fields, b"number", 0) == number as u64)
}

// Whether the call is refused and nothing else is told, or its answer has this name and the fields fit the form.
#[tactic(auto, unfolding(crate::specs::Answers::answer_fits))]
pub fn fit(fields: &[u8], name: &[u8], form: &[u8]) -> bool
    ensures { result ≡ answer_fits fields.now name.now form.now }
{
    if is_refused(fields) {
        form::fit(fields, b"answer=any number=number")
    } else {
        fields::is(fields, b"answer", name) & form::fit(fields, form)
    }
}
