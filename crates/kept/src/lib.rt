// What a call for C leaves behind its pointers.
#![tactic(auto)]

ghost use Rattle.std.specs.Prelude.{◌≡◌};
ghost use Rattle.refusals.specs.Numbers.{number_in};
ghost use Rattle.kept.specs.Kept.{value_or, filled, handed};

use refusals::Refused;

// Puts the value of an answer behind a pointer, where there is one: the number of the answer.
pub fn put<T: Drop>(answer: Result<T, Refused>, place: &mut T) -> u32
    ensures number { result ≡ number_in answer }
    ensures value { place.new ≡ value_or place.old answer }
{
    match answer {
        Ok(value) => {
            *place = value;
            0
        }
        Err(why) => u32::from(why),
    }
}

// Writes a digest out, over the first 32 bytes. Refuses by 6.
pub fn hand(digest: [u8; 32], out: &mut [u8]) -> u32
    ensures { filled result out.new ≡ handed digest out.old }
{
    if out.len() < 32 {
        return u32::from(Refused::OutputTooShort);
    }
    wire::write_digest(out, 0, digest);
    0
}
