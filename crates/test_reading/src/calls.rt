// Check, owed, entry and item list.
use codec::names::Offset;
use entries::calls::Info;
use slot::fields::Header;

pub fn check(dir: &[u8], log: &[u8], tail: usize) {
    io::write_all(1, b"check");
    printing::next_checked(entries::calls::check(dir, log, tail));
    printing::line_end();
}

// What is owed to replicas of these sets, with the place of their list. It is a function of its own, since the program's frame is not to hold
// this call's arrays beside those of the calls that follow.
#[inline(never)]
fn owed_to(dir: &[u8], log: &[u8], tail: usize, place: u64, sets: &[u64]) {
    io::write_all(1, b"owed");
    printing::next(place);
    match entries::owing::lowest_owing(dir, log, tail, sets) {
        Ok(Some(o)) => printing::next(o.0),
        Ok(None) => {
            io::write_all(1, b" none");
        }
        Err(r) => printing::next_refusal(r),
    }
    printing::line_end();
}

pub fn owed(dir: &[u8], log: &[u8], tail: usize) {
    // Lists that may be declared: none, with and without what is read, in both orders, everything, and each object by itself;
    // then an empty set, a bit past the directory, the most sets and one more.
    let lists: [&[u64]; 11] = [
        &[],
        &[16],
        &[18],
        &[18, 16],
        &[2],
        &[255],
        &[1, 2, 4, 8, 16, 32, 64, 128],
        &[4, 0],
        &[256],
        &[254; 16],
        &[254; 17],
    ];
    for (place, sets) in lists.iter().enumerate() {
        owed_to(dir, log, tail, place as u64, sets);
    }
}

fn header(h: Header) {
    printing::next(u64::from(h.object.0));
    printing::next(u64::from(h.format));
    printing::next(h.pointer);
}

fn info(i: Info) {
    printing::next(i.kind.number());
    printing::next(u64::from(i.number.0));
    printing::next(u64::from(i.headers));
    printing::next(u64::from(i.items));
    printing::next(u64::from(i.names.0));
    printing::next(u64::from(i.names.1));
    for h in [i.first, i.second, i.third, i.fourth]
        .iter()
        .take(i.headers as usize)
    {
        header(*h);
    }
}

fn entry(dir: &[u8], log: &[u8], tail: usize, o: u64) {
    io::write_all(1, b"entry");
    printing::next(o);
    match entries::calls::entry(dir, log, tail, Offset(o)) {
        Ok(i) => info(i),
        Err(r) => printing::next_refusal(r),
    }
    printing::line_end();
}

fn items(dir: &[u8], log: &[u8], tail: usize, o: u64) {
    io::write_all(1, b"items");
    printing::next(o);
    printing::words(entries::calls::items(dir, log, tail, Offset(o)));
}

fn both(dir: &[u8], log: &[u8], tail: usize, o: u64) {
    entry(dir, log, tail, o);
    items(dir, log, tail, o);
}

// The first eight offsets, the tail and the offset after it.
pub fn entries(dir: &[u8], log: &[u8], tail: usize) {
    for o in 0..8 {
        if o <= tail {
            both(dir, log, tail, o as u64);
        }
    }
    if 7 < tail {
        both(dir, log, tail, tail as u64);
    }
    if tail < 4294967296 {
        both(dir, log, tail, tail as u64 + 1);
    }
}
