// Numbers of more than 8 bits below flags, in two bytes: PIDs of 13 bits and lengths of 12.
// `FLAG` is a power of two: what the lowest flag bit, the one just above the number, counts in the first byte.
ghost use Rattle.std.specs.Prelude.{◌≡◌, ◌%◌, ◌/◌, ◌<◌, [], ◌∷◌};
ghost use Rattle.psi.specs.Fields.{number_in, flags_byte};

// What the lowest of the three flags above a PID counts in its byte.
pub(crate) const ABOVE_PID: u8 = 0x20;

// What the lowest of the four flags above a length counts in its byte.
pub(crate) const ABOVE_LENGTH: u8 = 0x10;

// The number below the flags in two bytes.
pub(crate) fn number_in<const FLAG: u8>(high: u8, low: u8) -> u16
    requires { 0 < FLAG }
    ensures { result ≡ number_in FLAG high low }
{
    u16::from_be_bytes([high % FLAG, low])
}

// Two bytes: the flags of a byte, and below them a number, of which the low bits are taken.
pub(crate) fn with_number<const FLAG: u8>(flags: u8, number: u16) -> [u8; 2]
    requires some { 0 < FLAG }
    requires whole { 256 % FLAG ≡ 0 }
    ensures { result ≡ flags_byte FLAG (flags / FLAG) number ∷ number % 0x100 ∷ [] }
{
    let [high, low] = number.to_be_bytes();
    [flags / FLAG * FLAG + high % FLAG, low]
}
