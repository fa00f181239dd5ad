mod tables;

use std::test::Fail;
use tb_base::*;

/// Bits as the tables write them, as in `s4:9`.
fn bits_of(word: &str) -> Option<Bits> {
    let (kind, raw) = word.split_once(':')?;
    let (sign, width) = kind.split_at_checked(1)?;
    let width = Width::new(read_number(width.as_bytes())?)?;
    Some(Bits::new(width, sign == "s", read_number(raw.as_bytes())?))
}

#[test]
fn rows_of_the_table(rt: HostRuntime) -> Result<(), Fail> {
    let mut tried = 0u32;
    for line in tables::ROWS.lines() {
        let (call, wanted) = line.split_once(" = ").ok_or("a line without an answer")?;
        let mut words = call.split(' ');
        let op = Op::named(words.next().ok_or("a line without a word")?.as_bytes());
        let op = op.ok_or("no operation of that name")?;
        let mut args = Vec::new(rt.alloc());
        let mut nums = Vec::new(rt.alloc());
        for word in words {
            match bits_of(word) {
                Some(bits) => args.push(bits)?,
                None => nums.push(read_number(word.as_bytes()).ok_or("no number")?)?,
            }
        }
        assert_eq!(rt; apply(op, &args, &nums), bits_of(wanted), "at {line}");
        tried = tried.saturating_add(1);
    }
    assert_eq!(rt; tried, 296);
    Ok(())
}

#[test]
fn widths_of_the_table(rt: HostRuntime) -> Result<(), Fail> {
    let mut tried = 0u32;
    for line in tables::WIDTHS.lines() {
        let (call, wanted) = line.split_once(" = ").ok_or("a line without an answer")?;
        let mut words = call.split(' ');
        let op = Op::named(words.next().ok_or("a line without a word")?.as_bytes());
        let op = op.ok_or("no operation of that name")?;
        let signed = words.next() == Some("s");
        let mut widths: Vec<u8> = Vec::new(rt.alloc());
        let mut nums: Vec<u128> = Vec::new(rt.alloc());
        for word in words {
            match word.strip_prefix('w') {
                Some(width) => widths.push(width.parse::<u8>()?)?,
                None => nums.push(read_number(word.as_bytes()).ok_or("no number")?)?,
            }
        }
        assert!(rt;
            widths.len() == op.operands() && nums.len() == op.numbers(),
            "at {line}"
        );
        assert!(rt; widths.iter().all(|w| *w <= 129), "at {line}");
        assert_eq!(rt;
            result_width(op, signed, &widths, &nums),
            wanted.parse::<u8>()?,
            "at {line}"
        );
        tried = tried.saturating_add(1);
    }
    assert_eq!(rt; tried, 72);
    Ok(())
}

#[test]
fn numbers_of_texts(rt: HostRuntime) -> Result<(), Fail> {
    for line in tables::NUMBERS.lines() {
        let (text, wanted) = line.split_once(" = ").ok_or("a line without an answer")?;
        assert_eq!(rt;
            read_number(text.as_bytes()),
            wanted.parse::<u128>().ok(),
            "at {line}"
        );
    }
    Ok(())
}

#[test]
fn paths_in_order(rt: HostRuntime) -> Result<(), Fail> {
    let root = Path::root(rt.alloc());
    let first = root.child(0).ok_or("no child")?;
    let inner = first.child(2).ok_or("no child")?;
    let later = first.child(10).ok_or("no child")?;
    let second = root.child(1).ok_or("no child")?;
    let ascending = [root, first, inner, later, second];
    let mut text = Vec::new(rt.alloc());
    for (i, a) in ascending.iter().enumerate() {
        for (j, b) in ascending.iter().enumerate() {
            assert_eq!(rt; a.cmp(b), i.cmp(&j));
            assert_eq!(rt; a.compare(b), i.cmp(&j));
        }
        put_path(rt.alloc(), &mut text, a)?;
        put(&mut text, b" ")?;
    }
    assert_eq!(rt; text.as_slice(), b"/ /0 /0/2 /0/10 /1 ".as_slice());
    assert!(rt; Region::Main < Region::Monitor);
    Ok(())
}

#[test]
fn eight_forks_deep(rt: HostRuntime) -> Result<(), Fail> {
    let mut path = Path::root(rt.alloc());
    for k in 0..8u32 {
        path = path.child(k).ok_or("no child")?;
    }
    assert_eq!(rt; path.numbers(), [0, 1, 2, 3, 4, 5, 6, 7].as_slice());
    assert_eq!(rt; path.child(0), None);
    assert_eq!(rt; path.copy(), path);
    Ok(())
}

#[test]
fn texts_that_grow(rt: HostRuntime) -> Result<(), Fail> {
    let mut out = Vec::new(rt.alloc());
    put(&mut out, b"n =")?;
    put_gap(&mut out, b", ", true)?;
    put(&mut out, b" ")?;
    put_decimal(rt.alloc(), &mut out, u128::MAX)?;
    put_gap(&mut out, b"; ", false)?;
    put_decimals(rt.alloc(), &mut out, b", ", true, &[0, 10, 200])?;
    put_decimals(rt.alloc(), &mut out, b", ", false, &[3, 4])?;
    put_decimals(rt.alloc(), &mut out, b", ", false, &[])?;
    put(&mut out, b" at ")?;
    let place = Place {
        line: 3,
        column: 14,
    };
    put_place(rt.alloc(), &mut out, place)?;
    let wanted =
        b"n = 340282366920938463463374607431768211455; 0, 10, 200, 3, 4 at line 3 column 14";
    assert_eq!(rt; out.as_slice(), wanted.as_slice());
    assert_eq!(rt; place.to_string(rt.alloc())?.as_str(), "line 3 column 14");
    assert_eq!(rt; Memory.to_string(rt.alloc())?.as_str(), "out of memory");
    Ok(())
}

#[test]
fn lists_and_names(rt: HostRuntime) -> Result<(), Fail> {
    let list = Seq::of([3u32, 1, 2].to_vec(rt.alloc())?);
    let copy = list.copy(rt.alloc())?;
    assert_eq!(rt; copy.items(), [3, 1, 2].as_slice());
    assert_eq!(rt; list.into_vec().as_slice(), [3, 1, 2].as_slice());
    let name = Name::of(b"out".to_vec(rt.alloc())?);
    assert_eq!(rt; name.copy(rt.alloc())?.bytes(), b"out".as_slice());
    assert_eq!(rt; name.into_vec().as_slice(), b"out".as_slice());
    Ok(())
}

#[test]
fn bits_at_another_width(rt: HostRuntime) -> Result<(), Fail> {
    let narrow = Width::new(4).ok_or("no width")?;
    let wide = Width::new(128).ok_or("no width")?;
    assert_eq!(rt; Width::new(129), None);
    let least = Bits::new(narrow, true, 0x18);
    assert_eq!(rt;
        (least.width().get(), least.signed(), least.raw()),
        (4, true, 8)
    );
    assert_eq!(rt; (least.is_negative(), least.magnitude()), (true, 8));
    assert_eq!(rt; least.word(), u128::MAX - 7);
    assert_eq!(rt; least.fit(wide).raw(), u128::MAX - 7);
    assert_eq!(rt; least.fit(wide).fit(narrow), least);
    assert_eq!(rt; Bits::new(narrow, false, 0x18).fit(wide).raw(), 8);
    assert_eq!(rt; Bits::new(wide, true, 1 << 127).magnitude(), 1 << 127);
    Ok(())
}
