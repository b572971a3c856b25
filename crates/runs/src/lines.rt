// What is printed: words, line ends, and after a label a number, numbers with a space before each, 32 bytes in hexadecimal, the digest of bytes. No
// statement can speak of what is written; each call answers how many bytes it gives to be written, and that of several numbers how many they are.
ghost use Rattle.std.specs.Prelude.{◌≡◌, ◌+◌, length};
ghost use Rattle.runs.specs.Lines.{digits_in};

pub fn say(rt: &impl Print, word: &[u8]) -> usize
    ensures { result ≡ length word.now }
{
    let _ = rt.write_all(word);
    word.len()
}

pub fn end_line(rt: &impl Print) -> usize
    ensures { result ≡ 1 }
{
    say(rt, b"\n")
}

pub fn say_number(rt: &impl Print, label: &[u8], n: u64) -> usize
    ensures { result ≡ length label.now + digits_in n }
{
    let mut text = [0u8; 20];
    let k = io::decimal(n, &mut text);
    say(rt, label) + say(rt, &text[..k])
}

pub fn say_numbers(rt: &impl Print, label: &[u8], numbers: &[u64]) -> usize
    ensures { result ≡ length numbers.now }
{
    say(rt, label);
    for &n in numbers {
        say_number(rt, b" ", n);
    }
    numbers.len()
}

pub fn say_hex(rt: &impl Print, label: &[u8], bytes: [u8; 32]) -> usize
    ensures { result ≡ length label.now + 64 }
{
    say(rt, label) + say(rt, &hex_digits::digits_of(bytes))
}

pub fn say_digest(rt: &impl Print, label: &[u8], bytes: &[u8]) -> usize
    ensures { result ≡ length label.now + 64 }
{
    let mode = digest::plain();
    say_hex(rt, label, digest::digest_of(&mode, bytes).bytes)
}
