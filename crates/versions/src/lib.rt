// The versions of a settings file: which one a file has, which one it has after a put, and a file of each with no junction.
#![tactic(auto)]

ghost use Rattle.std.specs.Prelude.{◌≡◌, true, cond, [], ◌≤◌, length};
ghost use Rattle.standard.specs.Settings.{version_one, version_two, version_in, version_for, file_of, trailer, is_file};

use standard::Version;

// Version 2.
pub fn version_two() -> Version
    ensures { result ≡ version_two }
{
    Version {
        start: 4,
        count: 2,
        most: 400,
        byte: 2,
    }
}

// The version of a file, by its last byte: 2 or, where that is another, 1.
pub fn version_in(file: &[u8]) -> Version
    ensures { (result ≡ version_in file.now) × (result.start ≤ 4) × (result.count ≤ 2) }
{
    if file.last() == Some(&2) {
        return version_two();
    }
    Version {
        start: 2,
        count: 1,
        most: 40,
        byte: 1,
    }
}

// The version after a put that leaves so many junctions. The bounds stay clauses: the definitions of a file are over `Version` as it is.
pub fn version_for(v: Version, junctions: usize) -> Version
    requires { (v.start ≤ 4) × (v.count ≤ 2) }
    ensures { (result ≡ version_for v junctions) × (result.start ≤ 4) × (result.count ≤ 2) }
{
    if junctions <= v.most {
        return v;
    }
    version_two()
}

// The settings file with no junction, of version 2 or 1: the number of its entries, the start of the last one, the version.
// `two` is a flag, as the clauses have it, which may not change: docs/TRACE.md names the function.
pub fn empty_file(two: bool) -> &'static [u8]
    ensures length { length result.now ≡ trailer (cond two version_two version_one) }
    ensures bytes { result.now ≡ file_of (cond two version_two version_one) [] }
    ensures is_file { is_file result.now ≡ true }
{
    if two {
        &[0, 0, 0, 0, 0, 0, 2]
    } else {
        &[0, 0, 0, 1]
    }
}
