//! What is proved of the definitions themselves. Each function does nothing: the point is its contract.

ghost use Rattle.sums.specs.Collisions.{Colliding, Sha256Collides};

/// Two rows with one sum are two texts with one hash, or a text whose hash is 32 zeros.
pub fn collisions()
    ensures any { Colliding }
    ensures this { Sha256Collides }
{}
