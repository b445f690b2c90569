// The C interface of the cache: its calls, with answers as plain structs. include/tinca.h declares it for C.
#![tactic(auto)]

ghost use Rattle.std.specs.Prelude.{◌≡◌};
ghost use Rattle.protocol.specs.Table.{geometry};
ghost use Rattle.protocol.specs.Store.{card as on_card, disk as on_disk, answer_of, after_on};
ghost use Rattle.protocol.specs.Format.{outcome_of, format_refusal, after_format};
ghost use Rattle.protocol.specs.Map.{free_count, made_map, map_after};
ghost use Rattle.protocol.specs.Commit.{commit_work};
ghost use Rattle.protocol.specs.Preview.{preview_answer, blocks_after};
ghost use Rattle.protocol.specs.Load.{load_work, table_after_load, evict_work};
ghost use Rattle.protocol.specs.Room.{room_work, table_after_save};
ghost use Rattle.protocol.specs.Recover.{recover_work};
ghost use Rattle.protocol.specs.Upgrade.{upgrade_work};
ghost use Rattle.protocol.specs.Pending.{opened, put_work, next_record, finish_work};
ghost use Rattle.protocol.specs.Read.{recent_output, recent_table, state_of};
ghost use Rattle.lookup.specs.Place.{found_at, recent_at};
ghost use Rattle.lookup.specs.Cached.{cached_at};
ghost use Rattle.plain.specs.Plain.{plain_answer, plain_outcome, plain_place, plain_state, plain_entry, plain_map, plain_record, lent_record, record_after, lent_map, words_after};

use pending::Save;
use plain::{TincaAnswer, TincaEntry, TincaMap, TincaPlace, TincaRecord, TincaState};
use protocol::{Map, Stored};

#[unsafe(no_mangle)]
pub extern "C" fn tinca_format(
    k: u64,
    slots: u64,
    blocks: u64,
    disk: u64,
    card: &mut [u8],
) -> TincaAnswer
    ensures answer { result ≡ plain_outcome (outcome_of (format_refusal (geometry k slots blocks disk) card.old)) }
    ensures card { card.new ≡ after_format 2 (geometry k slots blocks disk) card.old }
{
    plain::outcome(format::format(k, slots, blocks, disk, card))
}

#[unsafe(no_mangle)]
pub extern "C" fn tinca_make_map(card: &[u8]) -> TincaMap
    ensures { result ≡ plain_map (made_map card.now) }
{
    plain::mapped(recovery::make_map(card))
}

#[unsafe(no_mangle)]
pub extern "C" fn tinca_free_count(low: u64, high: u64) -> u64
    ensures { result ≡ free_count (record { low = low; high = high }) }
{
    freemap::free_count(Map { low, high })
}

#[unsafe(no_mangle)]
pub extern "C" fn tinca_commit(
    card: &mut [u8],
    map: &mut [u64],
    numbers: &[u64],
    bytes: &[u8],
    choice: &[u8],
    allowance: u64,
) -> TincaAnswer
    ensures answer { result ≡ plain_answer (answer_of allowance (commit_work 2 card.old (lent_map card.old map.old) numbers.now bytes.now choice.now)) }
    ensures card { card.new ≡ after_on on_card allowance (commit_work 2 card.old (lent_map card.old map.old) numbers.now bytes.now choice.now) card.old }
    ensures map { map.new ≡ words_after (answer_of allowance (commit_work 2 card.old (lent_map card.old map.old) numbers.now bytes.now choice.now)) (map_after allowance (commit_work 2 card.old (lent_map card.old map.old) numbers.now bytes.now choice.now) card.old (lent_map card.old map.old)) map.old }
{
    let m = plain::lent(card, map);
    plain::handed(
        map,
        commit::commit(card, m, numbers, bytes, choice, allowance),
    )
}

#[unsafe(no_mangle)]
pub extern "C" fn tinca_preview(
    card: &[u8],
    map: &[u64],
    numbers: &[u64],
    bytes: &[u8],
    blocks: &mut [u32],
) -> TincaAnswer
    ensures answer { result ≡ plain_answer (preview_answer card.now (lent_map card.now map.now) numbers.now bytes.now blocks.old) }
    ensures blocks { blocks.new ≡ blocks_after card.now (lent_map card.now map.now) numbers.now bytes.now blocks.old }
{
    let m = plain::lent(card, map);
    plain::answer(preview::preview(card, m, numbers, bytes, blocks))
}

#[unsafe(no_mangle)]
pub extern "C" fn tinca_commit_making_room(
    card: &mut [u8],
    disk: &mut [u8],
    map: &mut [u64],
    table: &mut [u8],
    numbers: &[u64],
    bytes: &[u8],
    choice: &[u8],
    allowance: u64,
) -> TincaAnswer
    ensures answer { result ≡ plain_answer (answer_of allowance (room_work 2 card.old disk.old (lent_map card.old map.old) table.old numbers.now bytes.now choice.now)) }
    ensures card { card.new ≡ after_on on_card allowance (room_work 2 card.old disk.old (lent_map card.old map.old) table.old numbers.now bytes.now choice.now) card.old }
    ensures disk { disk.new ≡ after_on on_disk allowance (room_work 2 card.old disk.old (lent_map card.old map.old) table.old numbers.now bytes.now choice.now) disk.old }
    ensures map { map.new ≡ words_after (answer_of allowance (room_work 2 card.old disk.old (lent_map card.old map.old) table.old numbers.now bytes.now choice.now)) (map_after allowance (room_work 2 card.old disk.old (lent_map card.old map.old) table.old numbers.now bytes.now choice.now) card.old (lent_map card.old map.old)) map.old }
    ensures table { table.new ≡ table_after_save allowance card.old disk.old (lent_map card.old map.old) table.old numbers.now bytes.now choice.now }
{
    let m = plain::lent(card, map);
    plain::handed(
        map,
        room::commit(card, disk, m, table, numbers, bytes, choice, allowance),
    )
}

#[unsafe(no_mangle)]
pub extern "C" fn tinca_load(
    card: &mut [u8],
    disk: &[u8],
    map: &mut [u64],
    table: &mut [u8],
    block: u64,
    choice: &[u8],
    allowance: u64,
) -> TincaAnswer
    ensures answer { result ≡ plain_answer (answer_of allowance (load_work 2 card.old disk.now (lent_map card.old map.old) table.old block choice.now)) }
    ensures card { card.new ≡ after_on on_card allowance (load_work 2 card.old disk.now (lent_map card.old map.old) table.old block choice.now) card.old }
    ensures map { map.new ≡ words_after (answer_of allowance (load_work 2 card.old disk.now (lent_map card.old map.old) table.old block choice.now)) (map_after allowance (load_work 2 card.old disk.now (lent_map card.old map.old) table.old block choice.now) card.old (lent_map card.old map.old)) map.old }
    ensures table { table.new ≡ table_after_load allowance card.old disk.now (lent_map card.old map.old) table.old block choice.now }
{
    let m = plain::lent(card, map);
    plain::handed(
        map,
        transfer::load(card, disk, m, table, block, choice, allowance),
    )
}

#[unsafe(no_mangle)]
pub extern "C" fn tinca_evict(
    card: &mut [u8],
    disk: &mut [u8],
    map: &mut [u64],
    block: u64,
    choice: &[u8],
    allowance: u64,
) -> TincaAnswer
    ensures answer { result ≡ plain_answer (answer_of allowance (evict_work 2 card.old disk.old (lent_map card.old map.old) block choice.now)) }
    ensures card { card.new ≡ after_on on_card allowance (evict_work 2 card.old disk.old (lent_map card.old map.old) block choice.now) card.old }
    ensures disk { disk.new ≡ after_on on_disk allowance (evict_work 2 card.old disk.old (lent_map card.old map.old) block choice.now) disk.old }
    ensures map { map.new ≡ words_after (answer_of allowance (evict_work 2 card.old disk.old (lent_map card.old map.old) block choice.now)) (map_after allowance (evict_work 2 card.old disk.old (lent_map card.old map.old) block choice.now) card.old (lent_map card.old map.old)) map.old }
{
    let m = plain::lent(card, map);
    plain::handed(
        map,
        transfer::evict(card, disk, m, block, choice, allowance),
    )
}

#[unsafe(no_mangle)]
pub extern "C" fn tinca_recover(card: &mut [u8], map: &mut [u64], allowance: u64) -> TincaAnswer
    ensures answer { result ≡ plain_answer (answer_of allowance (recover_work 2 card.old (lent_map card.old map.old))) }
    ensures card { card.new ≡ after_on on_card allowance (recover_work 2 card.old (lent_map card.old map.old)) card.old }
    ensures map { map.new ≡ words_after (answer_of allowance (recover_work 2 card.old (lent_map card.old map.old))) (map_after allowance (recover_work 2 card.old (lent_map card.old map.old)) card.old (lent_map card.old map.old)) map.old }
{
    let m = plain::lent(card, map);
    plain::handed(map, recovery::recover(card, m, allowance))
}

#[unsafe(no_mangle)]
pub extern "C" fn tinca_open(card: &[u8]) -> TincaRecord
    ensures { result ≡ plain_record (opened card.now) }
{
    plain::recorded(Save::open(card))
}

#[unsafe(no_mangle)]
pub extern "C" fn tinca_put(
    card: &mut [u8],
    map: &mut [u64],
    held: &mut [u64],
    block: u64,
    bytes: &[u8],
    choice: &[u8],
    allowance: u64,
) -> TincaAnswer
    ensures answer { result ≡ plain_answer (answer_of allowance (put_work 2 card.old (lent_map card.old map.old) (lent_record held.old) block bytes.now choice.now)) }
    ensures card { card.new ≡ after_on on_card allowance (put_work 2 card.old (lent_map card.old map.old) (lent_record held.old) block bytes.now choice.now) card.old }
    ensures map { map.new ≡ words_after (answer_of allowance (put_work 2 card.old (lent_map card.old map.old) (lent_record held.old) block bytes.now choice.now)) (map_after allowance (put_work 2 card.old (lent_map card.old map.old) (lent_record held.old) block bytes.now choice.now) card.old (lent_map card.old map.old)) map.old }
    ensures held { held.new ≡ record_after (answer_of allowance (put_work 2 card.old (lent_map card.old map.old) (lent_record held.old) block bytes.now choice.now)) (next_record (answer_of allowance (put_work 2 card.old (lent_map card.old map.old) (lent_record held.old) block bytes.now choice.now)) (lent_record held.old)) held.old }
{
    let m = plain::lent(card, map);
    let save = Save {
        held: plain::lent_record(held),
    };
    let p = save.put(card, m, block, bytes, choice, allowance);
    let a = p.answer;
    let next = p.save;
    plain::put_record(held, a, next.held);
    let after = p.map;
    plain::handed(
        map,
        Stored {
            answer: a,
            map: after,
        },
    )
}

#[unsafe(no_mangle)]
pub extern "C" fn tinca_finish(
    card: &mut [u8],
    map: &mut [u64],
    held: &[u64],
    allowance: u64,
) -> TincaAnswer
    ensures answer { result ≡ plain_answer (answer_of allowance (finish_work 2 card.old (lent_map card.old map.old) (lent_record held.now))) }
    ensures card { card.new ≡ after_on on_card allowance (finish_work 2 card.old (lent_map card.old map.old) (lent_record held.now)) card.old }
    ensures map { map.new ≡ words_after (answer_of allowance (finish_work 2 card.old (lent_map card.old map.old) (lent_record held.now))) (map_after allowance (finish_work 2 card.old (lent_map card.old map.old) (lent_record held.now)) card.old (lent_map card.old map.old)) map.old }
{
    let m = plain::lent(card, map);
    let save = Save {
        held: plain::lent_record(held),
    };
    plain::handed(map, save.finish(card, m, allowance))
}

#[unsafe(no_mangle)]
pub extern "C" fn tinca_upgrade(card: &mut [u8], allowance: u64) -> TincaAnswer
    ensures answer { result ≡ plain_answer (answer_of allowance (upgrade_work card.old)) }
    ensures card { card.new ≡ after_on on_card allowance (upgrade_work card.old) card.old }
{
    plain::answer(upgrade::upgrade(card, allowance))
}

#[unsafe(no_mangle)]
pub extern "C" fn tinca_read(
    card: &[u8],
    disk: &[u8],
    table: &mut [u8],
    block: u64,
    out: &mut [u8],
) -> TincaPlace
    ensures answer { result ≡ plain_place (recent_at card.now disk.now table.old out.old block) }
    ensures output { out.new ≡ recent_output card.now disk.now table.old out.old block }
    ensures table { table.new ≡ recent_table card.now disk.now table.old out.old block }
{
    plain::place(lookup::fetch_recent(card, disk, table, block, out))
}

#[unsafe(no_mangle)]
pub extern "C" fn tinca_look(card: &[u8], disk: &[u8], block: u64) -> TincaPlace
    ensures { result ≡ plain_place (found_at card.now disk.now block) }
{
    plain::place(lookup::find(card, disk, block))
}

#[unsafe(no_mangle)]
pub extern "C" fn tinca_state_of(card: &[u8]) -> TincaState
    ensures { result ≡ plain_state (state_of card.now) }
{
    plain::state(lookup::state(card))
}

#[unsafe(no_mangle)]
pub extern "C" fn tinca_cached(card: &[u8], place: u64) -> TincaEntry
    ensures { result ≡ plain_entry (cached_at card.now place) }
{
    plain::entry(lookup::cached_at(card, place))
}
