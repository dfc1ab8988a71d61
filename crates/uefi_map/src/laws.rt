//! Laws of the definitions. Each holds for all of their values, and does nothing when it is called.

ghost use Rattle.uefi_map.specs.memory.Laws.{SameEntries, WritesOne};
ghost use Rattle.uefi_map.specs.pci.Laws.{ListOrFault, NeverBoth, ListAlone, FaultAlone};
ghost use Rattle.uefi_map.specs.rows.Maps as Maps;
ghost use Rattle.uefi_map.specs.rows.Lists as Lists;

/// States that the forty bytes of each descriptor alone tell the entries of a map, and writing a
/// descriptor leaves all other bytes: those of the other descriptors, the rest of each stride, and
/// what follows the map.
pub fn stride_free()
    ensures same_entries { SameEntries }
    ensures writes_one { WritesOne }
{}

/// States that all bytes begin with exactly one list of resources, or have exactly one fault.
pub fn one_list()
    ensures list_or_fault { ListOrFault }
    ensures never_both { NeverBoth }
    ensures list_alone { ListAlone }
    ensures fault_alone { FaultAlone }
{}

/// States that the definitions hold on worked rows: a firmware's map has its entries, some sizes
/// make no map, a root bridge's resources are a list, and some bytes have a fault. Each row is a
/// theorem.
#[tactic(auto, using(crate::proofs::MapRows::rows_hold, crate::proofs::ListRows::rows_hold))]
pub fn worked_rows()
    ensures maps { Maps.RowsHold }
    ensures lists { Lists.RowsHold }
{}
