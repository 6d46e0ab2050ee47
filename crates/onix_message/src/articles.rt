//! Which identifiers name an article.

ghost use Rattle.std.specs.Prelude.{◌≡◌};
ghost use Rattle.onix_records.specs.Product as product;

use onix_terms::code::Code2;

/// Whether identifiers of this type name an article: GTIN-13, 03, and ISBN-13, 15.
pub fn is_article_type(id_type: &Code2) -> bool
    ensures { result ≡ product.is_article_type id_type.now }
{
    let code = id_type.as_str();
    code == "03" || code == "15"
}
