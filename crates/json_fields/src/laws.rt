//! Laws of base64 and of its texts in JSON. Each function does nothing, and its clause is the law.

ghost use Rattle.std.specs.Prelude.{◌≡◌, ◌+◌, ◌*◌, ◌/◌, ℕ, List, length, IsTrue};
ghost use Rattle.std.specs.List.{list_all};
ghost use Rattle.json.specs.Print.{escape};
ghost use Rattle.base64.specs.GeneralPurpose.{IsBytes};
ghost use Rattle.json_fields.specs.declared.base64_text.Alphabet.{Alphabet};
ghost use Rattle.json_fields.specs.Base64.{encoded_by, is_base64url, ReadsEncodings};

/// A text is read as bytes exactly where it is their base64.
pub fn base64_is_exact()
    ensures { (alphabet : Alphabet) → ReadsEncodings alphabet }
{}

/// Base64 for URLs is of letters, digits, `-` and `_`, four for three bytes and fewer at the end.
pub fn base64url_is_of_its_alphabet()
    ensures characters { (bytes : List ℕ) → IsBytes bytes → IsTrue (list_all is_base64url (encoded_by Alphabet.UrlSafe bytes)) }
    ensures size { (bytes : List ℕ) → length (encoded_by Alphabet.UrlSafe bytes) ≡ (4 * length bytes + 2) / 3 }
{}

/// Base64 stands in a JSON string as it is.
pub fn base64_is_plain()
    ensures { (bytes : List ℕ) → IsBytes bytes → escape (encoded_by Alphabet.Standard bytes) ≡ encoded_by Alphabet.Standard bytes }
{}

/// Base64 with padding is of four characters for three bytes, and for what is left of three at the end.
pub fn base64_has_its_size()
    ensures { (bytes : List ℕ) → length (encoded_by Alphabet.Standard bytes) ≡ (length bytes + 2) / 3 * 4 }
{}
