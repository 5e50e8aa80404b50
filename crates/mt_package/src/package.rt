//! Package files.
ghost use Rattle.std.specs.Prelude.{◌≡◌, ◌⊎◌, Ok, Err, IfOk, IfErr, option_map};
ghost use Rattle.serde_json.specs.Read.{read};
ghost use Rattle.serde_json.specs.View.{view};
ghost use Rattle.mt_package.specs.Packages.{entry_of, field_of, object_of, package_of, said_by};

use mt_tokens::Text;
use serde_json::Value;
use std::alloc::Global;

/// Why a package file can't be read.
#[derive(Clone, Copy, Debug, PartialEq, Eq)]
pub enum PackageFault {
    /// It isn't JSON.
    NotJson,
    /// It is JSON, and no object.
    NotObject,
    /// Memory ran out.
    NoMemory,
}

/// What a package file says: the data of its JSON.
#[derive(Drop)]
pub struct Package {
    value: Value,
}

/// The object that a text spells in JSON.
fn read_object(alloc: Global, text: &str) -> Result<Value, PackageFault>
    ensures ok { IfOk result (λ value. object_of (read text.now) ≡ Ok (view value)) }
    ensures err { IfErr result (λ e. (e ≡ PackageFault.NoMemory) ⊎ (object_of (read text.now) ≡ Err e)) }
{
    match Value::from_str(alloc, text) {
        Ok(value) => {
            if value.is_object() {
                Ok(value)
            } else {
                Err(PackageFault::NotObject)
            }
        }
        Err(error) => Err(if error.is_memory() {
            PackageFault::NoMemory
        } else {
            PackageFault::NotJson
        }),
    }
}

/// Reads the bytes of a package file.
///
/// Refused where they aren't JSON in UTF-8 (RFC 8259), where that is no object, or where memory runs out.
pub fn read_package(alloc: Global, bytes: &[u8]) -> Result<Package, PackageFault>
    ensures ok { IfOk result (λ p. package_of bytes.now ≡ Ok (said_by p)) }
    ensures err { IfErr result (λ e. (e ≡ PackageFault.NoMemory) ⊎ (package_of bytes.now ≡ Err e)) }
{
    match std::str::from_utf8(bytes) {
        Ok(text) => {
            let value = read_object(alloc, text)?;
            Ok(Package { value })
        }
        Err(_) => Err(PackageFault::NotJson),
    }
}

impl Package {
    /// What a field says, where it is a string that isn't empty.
    fn field(&self, field: &Text) -> Option<&str>
        ensures { option_map (λ text. text.now) result ≡ field_of (said_by self.now) field.now }
    {
        match self.value.get(field.as_str()).and_then(Value::as_str) {
            Some(text) if !text.is_empty() => Some(text),
            _ => None,
        }
    }

    /// The entry of the package: what the first of these fields says that is a string and isn't empty.
    pub fn entry(&self, main_fields: &[Text]) -> Option<&str>
        ensures entry { option_map (λ text. text.now) result ≡ entry_of main_fields.now (said_by self.now) }
    {
        let mut rest = main_fields;
        while let Some((field, more)) = rest.split_first() {
            if let Some(text) = self.field(field) {
                return Some(text);
            }
            rest = more;
        }
        None
    }
}
