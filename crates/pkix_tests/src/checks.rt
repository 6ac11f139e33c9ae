//! Worked examples, each the contract of a function that does nothing else.
ghost use Rattle.std.specs.Prelude.{◌≡◌, [], ◌∷◌, pos, negsuc};
ghost use Rattle.der_types.specs.Integers.{signed_content};

/// The contents of numbers where one more byte is needed.
pub fn example_integers()
    ensures zero { signed_content (pos 0) ≡ 0x00 ∷ [] }
    ensures greatest_of_one { signed_content (pos 127) ≡ 0x7F ∷ [] }
    ensures least_of_two { signed_content (pos 128) ≡ 0x00 ∷ 0x80 ∷ [] }
    ensures without_zero { signed_content (pos 256) ≡ 0x01 ∷ 0x00 ∷ [] }
    ensures minus_one { signed_content (negsuc 0) ≡ 0xFF ∷ [] }
    ensures minus_128 { signed_content (negsuc 127) ≡ 0x80 ∷ [] }
    ensures minus_129 { signed_content (negsuc 128) ≡ 0xFF ∷ 0x7F ∷ [] }
{}
