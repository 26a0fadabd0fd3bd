//! Files kept in a map by their names.
ghost use Rattle.std.specs.Prelude.{◌≡◌, OnOk, OnErr, IsSome};
ghost use Rattle.std.specs.Option.{option_map};
ghost use Rattle.adc_ports.specs.Kept.{kept_files, files_of, with_file, with_appended};

use crate::Memory;
use std::alloc::Global;
use std::collections::BTreeMap;

/// The bytes of a file.
pub fn file<'a>(kept: &'a BTreeMap<String, Vec<u8>>, name: &str) -> Option<&'a [u8]>
    ensures { option_map (λ r. r.now) result ≡ files_of (kept_files kept.now) name.now }
{
    kept.get(name).map(|bytes| bytes.as_slice())
}

/// Puts a file, or replaces the one of its name.
pub fn put(
    alloc: Global,
    kept: &mut BTreeMap<String, Vec<u8>>,
    name: &str,
    bytes: Vec<u8>,
) -> Result<(), Memory>
    ensures ok { OnOk result (kept_files kept.new ≡ with_file (kept_files kept.old) name.now bytes.items) }
    ensures err { OnErr result (kept_files kept.new ≡ kept_files kept.old) }
{
    let Ok(key) = String::from_str(alloc, name) else {
        return Err(Memory);
    };
    match kept.insert(key, bytes) {
        Ok(_) => Ok(()),
        Err(_) => Err(Memory),
    }
}

/// Adds all of the bytes at a file's end.
pub fn append(kept: &mut BTreeMap<String, Vec<u8>>, name: &str, bytes: &[u8]) -> Result<(), Memory>
    requires { IsSome (files_of (kept_files kept.old) name.now) }
    ensures ok { OnOk result (kept_files kept.new ≡ with_appended (kept_files kept.old) name.now bytes.now) }
    ensures err { OnErr result (kept_files kept.new ≡ kept_files kept.old) }
{
    match kept.get_mut(name) {
        None => Err(Memory),
        Some(file) => match file.extend_from_slice(bytes) {
            Ok(()) => Ok(()),
            Err(_) => Err(Memory),
        },
    }
}
