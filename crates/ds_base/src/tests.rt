ghost use Rattle.std.specs.Prelude.{◌≡◌, ◌≤◌, ◌↔◌, IsTrue, IfOk};
ghost use Rattle.std.specs.Cmp.Lexicographic.{slice_cmp};
ghost use Rattle.std.specs.Ordering.{nat_cmp};

use super::*;
use std::alloc::{AllocError, Global};
use std::cmp::Ordering;
use std::io::{self, Read, Write};
use std::test::Fail;
use uuid::Uuid;

// That `==`, `clone` and `cmp` say what callers take them to say.
fn are_same_words(a: &Word, b: &Word) -> bool
    ensures { IsTrue result ↔ (a.now ≡ b.now) }
{
    *a == *b
}

fn are_same_names(a: &Name, b: &Name) -> bool
    ensures { IsTrue result ↔ (a.now ≡ b.now) }
{
    *a == *b
}

fn are_same_keys(a: &Key, b: &Key) -> bool
    ensures { IsTrue result ↔ (a.now ≡ b.now) }
{
    *a == *b
}

fn are_same_sectors(a: &Sector, b: &Sector) -> bool
    ensures { IsTrue result ↔ (a.now ≡ b.now) }
{
    *a == *b
}

fn are_same_commands(a: &Command, b: &Command) -> bool
    ensures { IsTrue result ↔ (a.now ≡ b.now) }
{
    *a == *b
}

fn copy_of_word(word: &Word) -> Result<Word, AllocError>
    ensures { IfOk result (λ copy. copy ≡ word.now) }
{
    word.clone()
}

fn copy_of_name(name: &Name) -> Result<Name, AllocError>
    ensures { IfOk result (λ copy. copy ≡ name.now) }
{
    name.clone()
}

fn order_of_names(a: &Name, b: &Name) -> Ordering
    ensures { result ≡ slice_cmp nat_cmp a.now b.now }
{
    a.cmp(b)
}

#[test]
fn names_and_words_by_length_and_byte(rt: HostRuntime) -> Result<(), Fail> {
    let long = [b'a'; 256];
    let lengths = [
        (0, false, true),
        (1, true, true),
        (100, true, true),
        (101, false, true),
        (255, false, true),
        (256, false, false),
    ];
    for (length, is_name, is_word) in lengths {
        let word = Word::new(&long[..length]);
        assert_eq!(rt; word.is_some(), is_word, "a word of {length} bytes");
        assert_eq!(rt;
            Name::from_bytes(&long[..length]).is_some(),
            is_name,
            "a name of {length} bytes"
        );
        if let Some(word) = word {
            assert_eq!(rt;
                Name::read(&word).is_some(),
                is_name,
                "the word of {length} bytes as a name"
            );
        }
    }
    let allowed = b"ABCDEFGHIJKLMNOPQRSTUVWXYZabcdefghijklmnopqrstuvwxyz0123456789._-";
    for byte in 0..=255u8 {
        let is_allowed = allowed.contains(&byte);
        assert_eq!(rt;
            Name::from_bytes(&[byte]).is_some(),
            is_allowed && byte != b'.',
            "the byte {byte}"
        );
        assert_eq!(rt;
            Name::from_bytes(&[b'x', byte]).is_some(),
            is_allowed,
            "x and the byte {byte}"
        );
    }
    let dots: [(&[u8], bool); 5] = [
        (b".", false),
        (b"..", false),
        (b"...", true),
        (b".a", true),
        (b"a.", true),
    ];
    for (bytes, is_name) in dots {
        assert_eq!(rt;
            Name::from_bytes(bytes).is_some(),
            is_name,
            "the name {bytes:?}"
        );
    }
    let (first, second) = (
        Name::from_bytes(b"B").ok_or("no name")?,
        Name::from_bytes(b"a").ok_or("no name")?,
    );
    assert_eq!(rt; order_of_names(&first, &second), Ordering::Less);
    assert!(rt; are_same_names(&first, &copy_of_name(&first)?));
    assert_eq!(rt; first.bytes(), b"B".as_slice());
    let word = Word::new(b"a word").ok_or("no word")?;
    assert!(rt; are_same_words(&word, &copy_of_word(&word)?));
    let key = Key {
        object: 3,
        birth: 1,
    };
    assert!(rt; are_same_keys(&key, &key));
    Ok(())
}

fn with(geom: Geom, field: GeomField, value: u16) -> Geom {
    let Geom {
        mut slots,
        mut block,
        mut clusters,
        mut items,
    } = geom;
    let byte = u8::try_from(value).unwrap_or(u8::MAX);
    match field {
        GeomField::Slots => slots = byte,
        GeomField::Block => block = value,
        GeomField::Clusters(kind) => clusters[kind as usize] = byte,
        GeomField::Items(kind) => items[kind as usize] = value,
    }
    Geom {
        slots,
        block,
        clusters,
        items,
    }
}

#[test]
fn a_geometry_names_its_first_bad_field(rt: HostRuntime) {
    let good = Geom {
        slots: 2,
        block: 8,
        clusters: [1, 2, 3, 4],
        items: [16, 32, 64, 128],
    };
    let fields = [
        (GeomField::Slots, 16),
        (GeomField::Block, 2048),
        (GeomField::Clusters(Kind::Fd), 8),
        (GeomField::Items(Kind::Fd), 256),
        (GeomField::Clusters(Kind::Sb), 8),
        (GeomField::Items(Kind::Sb), 3840),
        (GeomField::Clusters(Kind::Pb), 8),
        (GeomField::Items(Kind::Pb), 3840),
        (GeomField::Clusters(Kind::Fb), 8),
        (GeomField::Items(Kind::Fb), 3840u16),
    ];
    assert_eq!(rt; good.check(), Ok(()));
    for (i, (field, most)) in fields.iter().enumerate() {
        let bad = Err(BadGeom { field: *field });
        assert_eq!(rt; with(good, *field, 0).check(), bad, "none of {field:?}");
        assert_eq!(rt; with(good, *field, 1).check(), Ok(()), "one of {field:?}");
        assert_eq!(rt;
            with(good, *field, *most).check(),
            Ok(()),
            "most of {field:?}"
        );
        let too_much = with(good, *field, most.saturating_add(1));
        assert_eq!(rt; too_much.check(), bad, "too much of {field:?}");
        for (j, (other, _)) in fields.iter().enumerate() {
            if j > i {
                assert_eq!(rt;
                    with(too_much, *other, 0).check(),
                    bad,
                    "{field:?} before {other:?}"
                );
            }
        }
    }
}

// The values are those of Python's uuid.uuid5.
#[test]
fn a_host_id_is_the_version_5_id_of_its_name(rt: HostRuntime) {
    let url = Uuid::from_u128(0x6ba7b811_9dad_11d1_80b4_00c04fd430c8);
    let volume = Uuid::from_u128(0x00112233_4455_6677_8899_aabbccddeeff);
    let long = [b'x'; 100];
    let cases: [(Uuid, &[u8], u128); 5] = [
        (url, b"esx-01", 0x68d546e3_18c5_5f68_bc15_bf049e50ff24),
        (
            Uuid::from_u128(0),
            b"",
            0xe129f27c_5103_5c5c_844b_cdf0a15e160d,
        ),
        (volume, b"host-a", 0x2a377fba_7899_574a_b890_6af74544e9ac),
        (volume, b"", 0x739e0e84_90ea_5bcb_aea1_1d4a5dbefbae),
        (volume, &long, 0x111af5ff_316e_553d_98ed_ce8cba170539),
    ];
    for (namespace, name, id) in cases {
        assert_eq!(rt;
            host_id(namespace, name),
            Uuid::from_u128(id),
            "the id of {name:?}"
        );
    }
}

#[test]
fn sectors_differ_first_at_the_least_offset(rt: HostRuntime) {
    let zero = Sector::zero();
    assert_eq!(rt; zero.first_difference(&Sector::default()), None);
    assert!(rt; are_same_sectors(&zero, &Sector::default()));
    for offset in [0u16, 1, 255, 510, 511] {
        let mut bytes = [0; 512];
        bytes[usize::from(offset)] = 1;
        bytes[511] = 2;
        let other = Sector { bytes };
        assert_eq!(rt; zero.first_difference(&other), Some(offset));
        assert_eq!(rt; other.first_difference(&zero), Some(offset));
        assert!(rt; !are_same_sectors(&zero, &other));
        let write = Command::Write {
            at: 1,
            fresh: other,
        };
        assert!(rt; are_same_commands(&write, &write));
        assert!(rt; !are_same_commands(&write, &Command::Write { at: 1, fresh: zero }));
    }
}

// What a source gave until its end, in calls with room for four bytes, and how many calls failed.
fn drained<S: Source>(alloc: Global, source: &mut S) -> Result<(Vec<u8>, u64), AllocError> {
    let mut bytes = Vec::new(alloc);
    let mut failed = 0u64;
    for _ in 0..20 {
        let mut buf = [0; 4];
        match source.next(&mut buf) {
            Taken::Got(n) => bytes.extend_from_slice(&buf[..n])?,
            Taken::End => return Ok((bytes, failed)),
            Taken::Failed => failed = failed.saturating_add(1),
        }
    }
    Ok((bytes, 99))
}

#[test]
fn sources_give_all_their_bytes_and_fail_where_told(rt: HostRuntime) -> Result<(), Fail> {
    let alloc = rt.alloc();
    let ten = [1, 2, 3, 4, 5, 6, 7, 8, 9, 10];
    for call in 0..7u32 {
        let mut source = MemSource::new(ten.to_vec(alloc)?, [call].to_vec(alloc)?);
        let (bytes, failed) = drained(alloc, &mut source)?;
        assert_eq!(rt; bytes.as_slice(), ten.as_slice(), "call {call} fails");
        assert_eq!(rt;
            failed,
            u64::from(call >= 1 && call <= 4),
            "call {call} fails"
        );
    }
    let mut all = MemSource::new(ten.to_vec(alloc)?, [1, 2, 3].to_vec(alloc)?);
    let mut buf = [0; 12];
    for want in [
        Taken::Failed,
        Taken::Failed,
        Taken::Failed,
        Taken::Got(10),
        Taken::End,
        Taken::End,
    ] {
        assert_eq!(rt; all.next(&mut buf), want);
    }
    assert_eq!(rt; buf, [1, 2, 3, 4, 5, 6, 7, 8, 9, 10, 0, 0]);
    let (bytes, failed) = drained(alloc, &mut SureSource::new(ten.to_vec(alloc)?))?;
    assert_eq!(rt; bytes.as_slice(), ten.as_slice());
    assert_eq!(rt; failed, 0);
    Ok(())
}

#[test]
fn sinks_take_what_fits_and_fail_where_told(rt: HostRuntime) -> Result<(), Fail> {
    let alloc = rt.alloc();
    let piece = [1, 2, 3, 4];
    let took = Gave::Took(4);
    let runs = [
        (
            10,
            [0, 0],
            [took, took, Gave::Took(2), Gave::Failed],
            [1, 2, 3, 4, 1, 2, 3, 4, 1, 2].as_slice(),
        ),
        (
            8,
            [1, 3],
            [Gave::Failed, took, Gave::Failed, took],
            [1, 2, 3, 4, 1, 2, 3, 4].as_slice(),
        ),
        (
            3,
            [2, 4],
            [Gave::Took(3), Gave::Failed, Gave::Failed, Gave::Failed],
            [1, 2, 3].as_slice(),
        ),
        (
            0,
            [9, 9],
            [Gave::Failed, Gave::Failed, Gave::Failed, Gave::Failed],
            [].as_slice(),
        ),
    ];
    for (room, failing, wanted, bytes) in runs {
        let mut sink = MemSink::new(alloc, room, failing.to_vec(alloc)?)?;
        for want in wanted {
            assert_eq!(rt; sink.put(&piece), want, "with room for {room}");
        }
        assert_eq!(rt; sink.bytes(), bytes, "with room for {room}");
    }
    assert_eq!(rt; SureSink::new().put(&piece), took);
    Ok(())
}

// A reader and a writer that do in turn what a script says: so many bytes, or an error.
#[derive(Drop)]
struct Scripted {
    turns: Vec<Option<u8>>,
    at: usize,
}

impl Scripted {
    fn turn(&mut self, most: usize) -> io::Result<usize>
        ensures { IfOk result (λ n. n ≤ most) }
    {
        let turn = self.turns.get(self.at).copied().flatten();
        self.at = self.at.saturating_add(1);
        match turn {
            Some(n) => Ok(usize::from(n).min(most)),
            None => Err(io::Error::from(io::ErrorKind::Interrupted)),
        }
    }
}

impl Read for Scripted {
    fn read(&mut self, buf: &mut [u8]) -> io::Result<usize> {
        let n = self.turn(buf.len())?;
        buf[..n].fill(7);
        Ok(n)
    }
}

impl Write for Scripted {
    fn write(&mut self, buf: &[u8]) -> io::Result<usize> {
        self.turn(buf.len())
    }

    fn flush(&mut self) -> io::Result<()> {
        Ok(())
    }
}

#[test]
fn std_readers_and_writers_count_their_errors(rt: HostRuntime) -> Result<(), Fail> {
    let alloc = rt.alloc();
    let turns = [Some(3), None, Some(9), Some(0), None];
    let mut source = StdSource::new(Scripted {
        turns: turns.to_vec(alloc)?,
        at: 0,
    });
    let mut buf = [0; 4];
    for want in [
        Taken::Got(3),
        Taken::Failed,
        Taken::Got(4),
        Taken::End,
        Taken::Failed,
    ] {
        assert_eq!(rt; source.next(&mut buf), want);
    }
    assert_eq!(rt; buf, [7; 4]);
    let mut sink = StdSink::new(Scripted {
        turns: turns.to_vec(alloc)?,
        at: 0,
    });
    for want in [
        Gave::Took(3),
        Gave::Failed,
        Gave::Took(4),
        Gave::Failed,
        Gave::Failed,
    ] {
        assert_eq!(rt; sink.put(&[1, 2, 3, 4]), want);
    }
    Ok(())
}
