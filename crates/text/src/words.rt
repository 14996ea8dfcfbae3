// F23: a number as the bytes of a field.
ghost use Rattle.std.specs.Prelude.{◌≡◌};
ghost use Rattle.text.specs.Fields.{in_bytes};

// A number in four bytes, high byte first.
pub fn word(value: u32) -> [u8; 4]
    ensures { result ≡ in_bytes 4 value }
{
    value.to_be_bytes()
}
