// Names at their limits, and a list.
use crate::asserts::{holds, holds_in, same};
use htl_base::{Name, Seq};

// Bytes, and whether they are a name.
const TEXTS: [(&[u8], bool); 12] = [
    (b"x", true),
    (b"_", true),
    (b"a1_B", true),
    (&[b'a'; 48], true),
    (b"programs", true),
    (&[b'a'; 49], false),
    (b"", false),
    (b"1a", false),
    (b"a-b", false),
    (b"program", false),
    (b"if", false),
    (b"a b", false),
];

fn is_told(bytes: &[u8], is_name: bool) -> bool {
    match Name::new(bytes) {
        Some(name) => is_name && name.as_bytes() == bytes,
        None => !is_name,
    }
}

#[test]
fn names_are_told_apart(rt: HostRuntime) {
    for (bytes, is_name) in TEXTS {
        holds_in(&rt, bytes, is_told(bytes, is_name));
    }
}

#[test]
fn known_names_are_the_same(rt: HostRuntime) {
    let bytes = b"level_3";
    let name = Name::from_known(bytes);
    holds(
        &rt,
        name.as_bytes() == bytes.as_slice() && Name::new(bytes) == Some(name),
    );
}

#[test]
fn lists_keep_their_items(rt: HostRuntime) {
    let items = vec![in rt.alloc(); 1u32, 2, 3].expect(&rt, "memory");
    let mut list = Seq::new(items);
    list.set(1, 7);
    same(&rt, list.as_slice(), [1u32, 7, 3].as_slice());
    same(&rt, list.into_vec().len(), 3);
}
