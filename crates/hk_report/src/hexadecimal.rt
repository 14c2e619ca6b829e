// Numbers in eight digits of base 16.
ghost use Rattle.std.specs.Prelude.{◌≡◌, ◌<◌, ◌/◌, ◌%◌, false};
ghost use Rattle.std.specs.Fmt.{digit_glyph};
ghost use Rattle.hk_spec_lines.specs.Lines.{hexadecimal};

// The digit of that weight.
fn digit_at(n: u32, weight: u32) -> u8
    requires { 0 < weight }
    ensures { result ≡ digit_glyph false (n / weight % 16) }
{
    let digit = (n / weight % 16) as u8;
    if digit < 10 {
        b'0' + digit
    } else {
        b'a' + (digit - 10)
    }
}

pub fn digits(n: u32) -> [u8; 8]
    ensures { result ≡ hexadecimal n }
{
    [
        digit_at(n, 0x1000_0000),
        digit_at(n, 0x100_0000),
        digit_at(n, 0x10_0000),
        digit_at(n, 0x1_0000),
        digit_at(n, 0x1000),
        digit_at(n, 0x100),
        digit_at(n, 0x10),
        digit_at(n, 0x1),
    ]
}
