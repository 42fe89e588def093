// The known message codes, ascending.
ghost use Rattle.std.specs.Prelude.{◌≡◌};
ghost use Rattle.wire.specs.Products.{codes, known};

const CODES: [u16; 26] = [
    19, 20, 25, 27, 28, 30, 56, 78, 79, 80, 94, 99, 153, 154, 155, 159, 161, 163, 165, 170, 172,
    173, 174, 175, 176, 177,
];

#[tactic(auto, unfolding(crate::specs::Products::codes))]
pub fn known_message_codes() -> [u16; 26]
    ensures { result ≡ codes }
{
    CODES
}

#[tactic(auto, unfolding(crate::specs::Products::codes, crate::specs::Products::known))]
pub fn is_known_message_code(code: i16) -> bool
    ensures { result ≡ known code }
{
    match u16::try_from(code) {
        Ok(n) => CODES.contains(&n),
        Err(_) => false,
    }
}
