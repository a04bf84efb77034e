// An answer as it crosses to C: number and place as one number, and what was accepted stored where the caller lends room for it. A refusal
// stores nothing. Inner: a refusal's place is a node or an offset of a table's file, so that number and place fit 64 bits.
#![tactic(auto)]

mod numbers;

ghost use Rattle.std.specs.Prelude.{◌≡◌, cond, ◌++◌, ◌+◌, ◌*◌, ◌^◌, ◌<◌, length, drop, ltb};
ghost use Rattle.answers.specs.Verdicts.{refusal_no, refusal_place, answer_of, done_of};
ghost use Rattle.exports_answers.specs.Codes.{code, Near, stored_as, roomy, stored_all};

use answers::Refusal;
pub use numbers::{Number, Numbers};

// Number and place of a refusal.
fn refusal_code(r: Refusal) -> u64
    requires { refusal_place r < 8192 }
    ensures { result ≡ refusal_no r + 256 * refusal_place r }
{
    r.number() as u64 + 256 * (r.place() as u64)
}

// Stores values from the front of the lent entries on, or answers 9 where there are too few of them.
fn store(values: &[u64], lent: &mut [u64]) -> u64
    ensures value { result ≡ cond (ltb (length lent.old) (length values.now)) 9 0 }
    ensures lent_after { lent.new ≡ cond (ltb (length lent.old) (length values.now)) lent.old (values.now ++ drop (length values.now) lent.old) }
{
    if lent.len() < values.len() {
        return 9;
    }
    lent[..values.len()].copy_from_slice(values);
    0
}

// An answer with nothing to say.
pub fn tell_done(answer: Result<(), Refusal>) -> u64
    requires { Near (done_of answer) }
    ensures { result ≡ code (done_of answer) }
{
    match answer {
        Ok(()) => 0,
        Err(r) => refusal_code(r),
    }
}

// An answer that is one number.
pub fn tell_number<T: Number>(answer: Result<T, Refusal>, value: &mut u64) -> u64
    requires { Near (answer_of (λ x. x) answer) }
    ensures value { result ≡ code (answer_of (λ x. x) answer) }
    ensures value_after { value.new ≡ stored_as T.number (answer_of (λ x. x) answer) value.old }
{
    match answer {
        Ok(x) => {
            *value = x.number();
            0
        }
        Err(r) => refusal_code(r),
    }
}

// An answer of several numbers.
pub fn tell_numbers<const N: usize, T: Numbers<N>>(
    answer: Result<T, Refusal>,
    lent: &mut [u64],
) -> u64
    requires near { Near (answer_of (λ x. x) answer) }
    requires few { N < 2 ^ 32 }
    ensures value { result ≡ code (roomy T.numbers lent.old (answer_of (λ x. x) answer)) }
    ensures lent_after { lent.new ≡ stored_all T.numbers (roomy T.numbers lent.old (answer_of (λ x. x) answer)) lent.old }
{
    match answer {
        Ok(x) => store(&x.numbers(), lent),
        Err(r) => refusal_code(r),
    }
}
