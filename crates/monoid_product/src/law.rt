//! The limits of products as numbers, which other clauses name by their constants.
ghost use Rattle.std.specs.Prelude.{◌≡◌};
ghost use Rattle.monoid_product.specs.declared.product.TheConstants.{KEY_LIMIT, PART_LIMIT};

/// How many keys and components a product may have. It does nothing: the numbers are its contract.
pub fn product_limits()
    ensures keys { KEY_LIMIT ≡ 8192 }
    ensures parts { PART_LIMIT ≡ 8 }
{}
