//! A law about streams. The function has an empty body.
ghost use Rattle.std.specs.Prelude.{◌≡◌};

use pm_jobs::INPUT_LIMIT;

/// The limit of an input, `INPUT_LIMIT`, is 16,777,216 bytes.
pub fn input_is_bounded()
    ensures bound { INPUT_LIMIT ≡ 16777216 }
{}
