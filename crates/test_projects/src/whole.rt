// Whether a build with faults left each file whole.
use mvn_base::FileName;
use mvn_shared::Bytes;
use outside_mem::MemFile;

/// The bytes that a repository has under a name.
pub fn bytes_of<'a>(files: &'a [MemFile], name: &FileName) -> Option<&'a Bytes> {
    for file in files {
        if file.name == *name {
            return Some(&file.bytes);
        }
    }
    None
}

// Whether a name has what it had before, or what the build without faults gave it.
fn is_whole(before: Option<&Bytes>, calm: &Option<Bytes>, now: &Option<Bytes>) -> bool {
    match (before, now) {
        (None, None) => true,
        (Some(old), Some(new)) if old == new => true,
        _ => now.is_some() && now == calm,
    }
}

/// The same of all names: the files that the repository had before, those that the build without faults left, and those that are there now,
/// the latter two by the places of the names.
pub fn are_whole(
    names: &[FileName],
    before: &[MemFile],
    calm: &[Option<Bytes>],
    now: &[Option<Bytes>],
) -> bool {
    for at in 0..names.len() {
        let old = bytes_of(before, &names[at]);
        match (calm.get(at), now.get(at)) {
            (Some(calm), Some(now)) if is_whole(old, calm, now) => {}
            _ => return false,
        }
    }
    true
}
