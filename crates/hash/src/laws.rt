//! What is proved of the definitions themselves: that they give the published values, and how long their values are.

ghost use Rattle.std.specs.Prelude.{◌≡◌, ℕ, ◌<◌, List, length, slice_index};
ghost use Rattle.hash.specs.Hmac.{hmac};
ghost use Rattle.hash.specs.Sha256.{sha256};
ghost use Rattle.hash.specs.Vectors.{Code1, Code2, Code3, Code4, Code5, Code6, Digest1, Digest2, Digest6, Digest8};

/// Every digest and every code has 32 bytes.
pub fn sizes_hold()
    ensures digest { (m : List ℕ) → length (sha256 m) ≡ 32 }
    ensures digest_byte { (m : List ℕ) (i : ℕ) → slice_index (sha256 m) i < 256 }
    ensures code { (k m : List ℕ) → length (hmac k m) ≡ 32 }
    ensures code_byte { (k m : List ℕ) (i : ℕ) → slice_index (hmac k m) i < 256 }
{}

/// The published digests are those of the definition.
pub fn digests_hold()
    ensures one { Digest1 }
    ensures two { Digest2 }
    ensures six { Digest6 }
    ensures eight { Digest8 }
{}

/// The published codes are those of the definition.
pub fn codes_hold()
    ensures one { Code1 }
    ensures two { Code2 }
    ensures three { Code3 }
    ensures four { Code4 }
    ensures five { Code5 }
    ensures six { Code6 }
{}
