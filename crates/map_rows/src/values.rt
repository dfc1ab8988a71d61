use crate::maps::{fields, meta_of, number};
use rows::Sets;
use std::alloc::Global;
use test_support::bytes;
use uefi_map::{
    MemoryAttribute, MemoryDescriptor, MemoryMap, MemoryMapKey, MemoryMapMeta, MemoryMapRef,
    MemoryType,
};

/// Returns what the calls of two sets of attributes return, whose bits are eight bytes each, and the
/// bits of either set by `|=`.
pub(crate) fn attribute(one: &[u8], other: &[u8]) -> Option<(Sets, u64)> {
    let ([a, b, c, d, e, f, g, h], [i, j, k, l, m, n, o, p]) = (one, other) else {
        return None;
    };
    let bits = u64::from_le_bytes([*a, *b, *c, *d, *e, *f, *g, *h]);
    let set = MemoryAttribute::from_bits_retain(bits);
    let other = u64::from_le_bytes([*i, *j, *k, *l, *m, *n, *o, *p]);
    let other = MemoryAttribute::from_bits_retain(other);
    let (mut inserted, mut removed, mut assigned) = (set, set, set);
    inserted.insert(other);
    removed.remove(other);
    assigned |= other;
    let union = [set.union(other), set | other, inserted];
    let difference = [set.difference(other), removed];
    let sets = Sets {
        from_bits: MemoryAttribute::from_bits(bits).map(|set| set.bits()),
        is_empty: set.is_empty(),
        is_all: set.is_all(),
        not: (!set).bits(),
        intersects: set.intersects(other),
        contains: set.contains(other),
        union: union.map(|set| set.bits()),
        difference: difference.map(|set| set.bits()),
        is_less: set < other,
    };
    Some((sets, assigned.bits()))
}

/// Returns what `Debug` prints of the type of a number, its name, and whether it is left to OEMs, to
/// loaders, and to either of them.
pub(crate) fn memory_type(alloc: Global, input: &str) -> Option<String> {
    let input = bytes(alloc, input).ok()?;
    let [a, b, c, d] = input.as_slice() else {
        return None;
    };
    let memory_type = MemoryType(u32::from_le_bytes([*a, *b, *c, *d]));
    let name = memory_type.name();
    let left = [
        memory_type.is_oem(),
        memory_type.is_os_loader(),
        memory_type.is_custom(),
    ];
    format!(in alloc; "({memory_type:?}, {name:?}, {left:?})").ok()
}

/// Returns the count of descriptors of a map with these sizes, if the stride divides its length.
fn count(meta: &MemoryMapMeta) -> Option<usize> {
    if meta.desc_size == 0 || meta.map_size % meta.desc_size != 0 {
        return None;
    }
    Some(meta.entry_count())
}

/// Returns what is made of the two sizes of a map: these, the key, the version, whether the sizes
/// are sane, and the count of descriptors.
pub(crate) fn sizes(alloc: Global, input: &str) -> Option<String> {
    let (map_size, desc_size) = input.split_once(" ; ")?;
    let meta = MemoryMapMeta::of(number(map_size)?, number(desc_size)?);
    let is_sane = meta.assert_sanity_checks();
    let count = count(&meta);
    format!(in alloc; "{meta:?}, {is_sane}, {count:?}").ok()
}

/// Returns the fields of the default descriptor, and the version of descriptors.
pub(crate) fn default_descriptor(alloc: Global) -> Option<String> {
    let (fields, version) = (
        fields(&MemoryDescriptor::default()),
        MemoryDescriptor::VERSION,
    );
    format!(in alloc; "({fields:?}, {version})").ok()
}

/// Returns the descriptor that forty bytes are.
pub(crate) fn descriptor(input: &[u8]) -> Option<MemoryDescriptor> {
    MemoryMapRef::new(input, meta_of(40, 40)).ok()?.get(0)
}

/// Returns whether the descriptors that two inputs are are equal.
pub(crate) fn equal_descriptors(one: &[u8], other: &[u8]) -> Option<bool> {
    Some(descriptor(one)? == descriptor(other)?)
}

/// Returns whether the key with a number is the default.
pub(crate) fn is_default_key(alloc: Global, input: &str) -> Option<String> {
    let is_default = MemoryMapKey::from_raw(number(input)?) == MemoryMapKey::default();
    format!(in alloc; "{is_default}").ok()
}
