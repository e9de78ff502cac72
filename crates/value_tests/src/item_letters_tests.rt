//! Rows of letters and of digits.
use item_letters::*;
use std::test::Fail;

#[test]
fn an_item_has_its_letter(rt: HostRuntime) -> Result<(), Fail> {
    for letter in b"NABCDEFGHsrmagtpfe" {
        let item = item_of(rt.alloc(), *letter)?;
        assert_eq!(rt; letter_of(&item), *letter);
    }
    Ok(())
}

#[test]
fn bytes_have_two_digits(rt: HostRuntime) -> Result<(), Fail> {
    let rows: [(&str, &'static [u8]); 4] = [
        ("", &[]),
        ("7", &[]),
        ("00fFA9x1", &[0, 255, 0xA9, 1]),
        ("125", &[0x12]),
    ];
    for (digits, wanted) in rows {
        assert_eq!(rt; bytes_by(rt.alloc(), digits)?.as_slice(), wanted);
    }
    Ok(())
}
