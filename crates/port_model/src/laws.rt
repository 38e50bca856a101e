//! Laws of the definitions. Each function does nothing, and its clause is the law.
ghost use Rattle.std.specs.Prelude.{◌≡◌, List, ℕ, [], ◌++◌, length, Option, Some};
ghost use Rattle.port_model.specs.Draws.{ByteStream, Draws};

/// Drawing some bytes and then others is drawing both in order, and drawing none changes nothing. The
/// bytes drawn from a stream that is told are determined by how many they are.
pub fn draws_compose()
    ensures none { (stream : Option ByteStream) → Draws stream stream [] }
    ensures composed { (first second third : Option ByteStream) (xs ys : List ℕ) → Draws first second xs → Draws second third ys → Draws first third (xs ++ ys) }
    ensures determined { (before : ByteStream) (one other : Option ByteStream) (xs ys : List ℕ) → Draws (Some before) one xs → Draws (Some before) other ys → length xs ≡ length ys → xs ≡ ys }
{}
