//! How site names and keys are spelled.

ghost use Rattle.std.specs.Prelude.{◌≡◌};
ghost use Rattle.std.specs.List.{list_all};
ghost use Rattle.luplace_file.specs.SiteName.{is_name_byte, is_site_name};
ghost use Rattle.luplace_file.specs.Keys.{is_key};

use lubase::limits::LONGEST_SITE_NAME;

fn is_name_byte(byte: u8) -> bool
    ensures { result ≡ is_name_byte byte }
{
    byte.is_ascii_alphanumeric() || byte == b'_'
}

fn are_name_bytes(bytes: &[u8]) -> bool
    ensures { result ≡ list_all is_name_byte bytes.now }
{
    bytes.iter().all(|byte| is_name_byte(*byte))
}

/// Whether a site may have the name: that of an identifier, of at most 32 bytes.
pub fn is_site_name(name: &[u8]) -> bool
    ensures { result ≡ is_site_name name.now }
{
    match name {
        [] => false,
        [first, rest @ ..] => {
            (first.is_ascii_alphabetic() || *first == b'_')
                && are_name_bytes(rest)
                && rest.len() < LONGEST_SITE_NAME
        }
    }
}

/// Whether a placement may have the key.
pub fn is_key(key: &str) -> bool
    ensures { result ≡ is_key key.now }
{
    key == "version" || key == "sites" || key == "default" || key == "capacity" || key == "place"
}
