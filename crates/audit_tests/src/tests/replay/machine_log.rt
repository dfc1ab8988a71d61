use super::logs::outcome_text;
use pcr_replay::{Bank, Pcrs, replay};
use std::alloc::Global;
use std::test::Fail;
use test_support::samples::MACHINE_LOG;
use test_support::{bytes, same_text};
use uefi_tcg::{LastEntry, Log, PcrIndex};

/// The PCRs of SHA-1 that `tpm2_eventlog` 5.4 prints for the log of a machine.
const MACHINE_SHA1: [(u32, &str); 9] = [
    (0, "5ca4ef5fbe527bef22bfe4d3a1b9a36a71753de9"),
    (1, "6fe8e24ebdcbbda37709538b3e26b8e437c44335"),
    (2, "2b61fdd69d83c1f16d332c29fd39b535aa9fb5cf"),
    (3, "b2a83b0ebf2f8374299a5b2bdfc31ea955ad7236"),
    (4, "fdebe995d8320cda83132e214c461fbdfc30cfcb"),
    (5, "d16d7e629fd8d08ca256f9ad3a3a1587c9e6cc1b"),
    (6, "b2a83b0ebf2f8374299a5b2bdfc31ea955ad7236"),
    (7, "518bd167271fbb64589c61e43d8c0165861431d8"),
    (9, "812a0c501c016c1ddba40586c6f23d67c17adebd"),
];

/// The PCRs of SHA-256 that `tpm2_eventlog` 5.4 prints for the log of a machine.
const MACHINE_SHA256: [(u32, &str); 9] = [
    (
        0,
        "177e29c417b6b61c7cf46ed30b4468931f58642527a268b556254e39b941ec6a",
    ),
    (
        1,
        "8e9d1fe23131f12d6a523e9c32eb3223d4dc25e14eb5fd60163e7ba8de0f248c",
    ),
    (
        2,
        "7283db88208a98a77b841934355d717e583235fa544a682bdaafb2232278ea36",
    ),
    (
        3,
        "3d458cfe55cc03ea1f443f1562beec8df51c75e14a9fcf9a7234a13f198e7969",
    ),
    (
        4,
        "d8d18e3f5e12f57d375729aaa27adfe707af96b222a04db0c2d9174f62290b19",
    ),
    (
        5,
        "a5ceb755d043f32431d63e39f5161464620a3437280494b5850dc1b47cc074e0",
    ),
    (
        6,
        "3d458cfe55cc03ea1f443f1562beec8df51c75e14a9fcf9a7234a13f198e7969",
    ),
    (
        7,
        "65caf8dd1e0ea7a6347b635d2b379c93b9a1351edc2afc3ecda700e534eb3068",
    ),
    (
        9,
        "22b8fb943630ecc6d48deecf08d5b21881be983eb6e62d38b96528a3052dd074",
    ),
];

/// The PCRs of SHA-384 that `tpm2_eventlog` 5.4 prints for the log of a machine.
const MACHINE_SHA384: [(u32, &str); 9] = [
    (
        0,
        "f4428d8c085a90327e84ec8a82b582776de009bf0865b0276620545d213a7d97528e6dd8643104a1\
         f64c67fbbd8d5e4f",
    ),
    (
        1,
        "06613eef6fb277f25b2effbd4b346d8f7f53ec9e9b70c06a995db8f0e43378c3dd4c23f3f26b3247\
         238219fb6891da62",
    ),
    (
        2,
        "60025d3cde5ded2d8b23126bdd34acbb598c65fd51f6c3453609aa5666ae952c3833bf3357a82a1a\
         d23289ab8d60d1b2",
    ),
    (
        3,
        "518923b0f955d08da077c96aaba522b9decede61c599cea6c41889cfbea4ae4d50529d96fe4d1afd\
         afb65e7f95bf23c4",
    ),
    (
        4,
        "882e3542c30c258f53866a8f45ef6e4e974b2626cd4ef40899c4354984d0f486ef470929e52dc56b\
         eda17bd1f83d11e1",
    ),
    (
        5,
        "c50b529497c7f441ea47305587d6ce83e2e31f7b4fab6c13dc0b0c3c900e1d0caf07683211009278\
         62df142bf0465ee4",
    ),
    (
        6,
        "518923b0f955d08da077c96aaba522b9decede61c599cea6c41889cfbea4ae4d50529d96fe4d1afd\
         afb65e7f95bf23c4",
    ),
    (
        7,
        "98441c7f7625d10058c47683aec486ce311c633235eb555593a7ee791121e3578ae72d04ecef661f\
         272d59058b77af35",
    ),
    (
        9,
        "a638fc5357bd57a96d548a5c720d630501930ba51f7dc982ba9858fb018602e3ffe5bf8e80b5c1b4\
         f365548b2359788a",
    ),
];

/// The PCRs of SHA-512 that `tpm2_eventlog` 5.4 prints for the log of a machine.
const MACHINE_SHA512: [(u32, &str); 9] = [
    (
        0,
        "0b9e6b78fc3feeba239bea5a9e28d1eccefeff3e5c304e2ea4266d863a5276e54e94a1c8515eaa3e\
         07b43287a8c88b4330fc4e54407409fc90514e6890474355",
    ),
    (
        1,
        "5f321fbed8a29e3cd7e015b0cadd5a129293724d8eb7f9db5b19abf1e55ced04bc6dd19e91d5046e\
         88528c7e74c91b4215b703e4015ebde7e526dd4b58a48dd8",
    ),
    (
        2,
        "27634d38eef505c8a6ef9c17332dd17b665edcde82970751c6847df87abb48ede5f61f407c93fb33\
         02294e301ed1d60a8da5495bee07743fc783afe9a7613b2a",
    ),
    (
        3,
        "27ec091533c4b9eea38dd14c3a3ecdef0a99c1e564cbe66dfe008250154e7839b0b75228fe8debcc\
         4ca330e6aebc1abc74070bc9c9c1e26b939c9d916e45e13c",
    ),
    (
        4,
        "2e562f742cf1c7af322d4f7423255e0057d7049c1e1381c54dda8f269cd14ca5adc0f98307747648\
         92f78f8352876231a87e9adb45a9d0974436e70b71e37fc4",
    ),
    (
        5,
        "e1625f0f32e9d099c03b7818ab8d7dbff32175c6482deb5a852aa0792ed365f52fa48e7f3143c507\
         0bd0fd3f9fc78ee3ce62fd0f9c0945ec40448cda934affde",
    ),
    (
        6,
        "27ec091533c4b9eea38dd14c3a3ecdef0a99c1e564cbe66dfe008250154e7839b0b75228fe8debcc\
         4ca330e6aebc1abc74070bc9c9c1e26b939c9d916e45e13c",
    ),
    (
        7,
        "7793d61d41cf40ae7cbf782dcac336ab5d8546d8b6c369fba740c784e16d4ec83247af2043f63527\
         90a9eb9aab9c95ef318e5dd22c788e0848a10f8c87472a3e",
    ),
    (
        9,
        "b9c1adb9101fba790d60f0c569fc682905bcf5ec5b363ef6cff5076680eb0beb35ad3b2d0dffad67\
         5f77c7517460aaae5d7da12dc9668c41409a6fc05158f5db",
    ),
];

/// Checks that a log leads to these PCRs of a bank.
fn check(alloc: Global, bank: Bank, rows: &[(u32, &str)]) -> Result<(), Fail> {
    let input = bytes(alloc, MACHINE_LOG)?;
    let log = Log::new(input.as_slice(), LastEntry::At(input.len()));
    let pcrs = replay(&log, bank);
    for (number, expected) in rows {
        check_pcr(alloc, &pcrs, *number, expected)?;
    }
    Ok(())
}

/// Checks that a PCR has this value, written as hex.
fn check_pcr(alloc: Global, pcrs: &Pcrs, number: u32, expected: &str) -> Result<(), Fail> {
    let Some(outcome) = pcrs.outcome(PcrIndex(number)) else {
        return Err(Fail::new(format_args!("there is no PCR {number}")));
    };
    let found = outcome_text(alloc, outcome)?;
    same_text("a PCR", found.as_str(), expected)
}

#[test]
fn a_machines_log_leads_to_the_pcrs_of_each_bank(rt: HostRuntime) -> Result<(), Fail> {
    check(rt.alloc(), Bank::Sha1, &MACHINE_SHA1)?;
    check(rt.alloc(), Bank::Sha256, &MACHINE_SHA256)?;
    check(rt.alloc(), Bank::Sha384, &MACHINE_SHA384)?;
    check(rt.alloc(), Bank::Sha512, &MACHINE_SHA512)
}
