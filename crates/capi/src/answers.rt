// What C is told of an answer.
ghost use Rattle.std.specs.Prelude.{◌≡◌, ℕ};
ghost use Rattle.laws.specs.Refusals.{answer};
ghost use Rattle.refusals.specs.Told.{number, told};
ghost use Rattle.capi.specs.Written.{Exported};
ghost use Rattle.capi.specs.Status.{status};

use refusals::Refusal;

// A refusal's number.
pub fn refused(reason: Refusal) -> u32
    ensures { result ≡ number reason }
{
    reason.number() as u32
}

// 0, or the refusal's number. Where the answer has several parts, or another type for C, the caller writes them.
pub fn status<T: Copy>(said: Result<T, Refusal>) -> u32
    ensures { result ≡ status said }
{
    match said {
        Err(reason) => refused(reason),
        Ok(_) => 0,
    }
}

// The same, and what was asked for is written.
pub fn tell<T: Copy>(said: Result<T, Refusal>, lent: &mut T) -> u32
    ensures { (n : ℕ) (v : T) → told said ≡ answer n v → Exported n v lent.old lent.new result }
{
    match said {
        Err(reason) => refused(reason),
        Ok(v) => {
            *lent = v;
            0
        }
    }
}
