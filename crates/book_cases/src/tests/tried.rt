// Texts whose words are all taken, and whose rows are tried for 8, 9 and 10: module by module, each over all places.
use super::told;
use std::test::Fail;

const WAITS_15: &str = "w.w.w.w.w.w.w.w.w.w.w.w.w.w.w.";

const UNGUARDED: [(&str, &str); 21] = [
    ("module A { X = X; }", "8 0 0"),
    ("module A { X = w.X; }", "8 0 0"),
    ("module A { X = (X); }", "8 0 0"),
    ("module A { X = Y; Y = X; }", "8 0 0"),
    ("module A { X = 0 + X; }", "8 0 1"),
    ("module A { X = X + 0; }", "8 0 0"),
    ("module A { X = ?1.0; Y = w.Y; }", "8 0 2"),
    ("module A { X = 0; Y = 0 + Y; }", "8 0 2"),
    ("module A { X = ?1.X + w.X; }", "8 0 0"),
    // a place that only leads to a cycle
    ("module A { X = w.Y; Y = w.Y; }", "8 0 0"),
    ("module A { X = ?1.Y; Y = Z; Z = Y; }", "8 0 0"),
    ("module A { X = ?1.0; Y = Z; Z = Y; }", "8 0 2"),
    // in the second module, told by its own numbers
    ("module A { X = 0; } module B { X = X; }", "8 1 0"),
    ("module A { X = w.0; } module B { X = 0; Y = Y; }", "8 1 1"),
    // an action stops the walk
    ("module A { X = ?1.X; }", "taken 2 1"),
    ("module A { X = !1.X; }", "taken 2 1"),
    ("module A { X = i.X; }", "taken 2 1"),
    ("module A { X = w.(?1.X + i.X); }", "taken 6 1"),
    ("module A { X = ?1.Y; Y = w.i.X; }", "taken 5 1"),
    // two branches come to one place
    ("module A { X = Y + Y; Y = 0; }", "taken 4 1"),
    ("module A { X = w.Y + Y; Y = Z + Z; Z = 0; }", "taken 8 1"),
];

#[test]
fn unguarded(rt: HostRuntime) -> Result<(), Fail> {
    for (text, wanted) in UNGUARDED {
        let found = told(rt.alloc(), text)?;
        assert_eq!(rt; found.as_str(), wanted, "{}", text);
    }
    Ok(())
}

// The equations of a module, in which `15` stands for 15 waits, and what is told of it.
const DEEP: [(&str, &str); 16] = [
    ("X = 150;", "taken 16 1"),
    ("X = w.150;", "9 0 16"),
    ("X = w.w.w.150;", "9 0 16"),
    ("X = 15?1.150;", "taken 32 1"),
    ("X = 15?1.w.150;", "9 0 16"),
    ("X = w.(150);", "9 0 16"),
    // a sum has the larger depth
    ("X = 150 + 0;", "taken 18 1"),
    ("X = w.0 + w.150;", "9 0 18"),
    ("X = w.(0 + 150);", "9 0 18"),
    // so has a name, which may come first
    ("X = ?1.Y; Y = 150;", "taken 18 1"),
    ("X = w.Y; Y = 150;", "9 0 1"),
    ("X = ?1.Y; Y = w.150;", "9 0 0"),
    ("X = 15Y; Y = w.0;", "9 0 15"),
    // a place that the start does not reach
    ("X = 0; Y = w.150;", "9 0 17"),
    // 8 over all places before 9
    ("X = w.150; Y = Y;", "8 0 17"),
    ("X = Y; Y = w.150; Z = Z;", "8 0 18"),
];

#[test]
fn deep(rt: HostRuntime) -> Result<(), Fail> {
    for (equations, wanted) in DEEP {
        let equations = equations.replace(rt.alloc(), "15", WAITS_15)?;
        let text = format!(in rt.alloc(); "module A {{ {equations} }}")?;
        let found = told(rt.alloc(), &text)?;
        assert_eq!(rt; found.as_str(), wanted, "{}", text);
    }
    Ok(())
}

// `A` has one move, `B` two, and so on to `G`, which has 64, and `H`, which has 128.
const TO_G: &str = "A = i.0; B = A + A; C = B + B; D = C + C; E = D + D; F = E + E; G = F + F;";

// What stands behind these equations, whose places are 0 to 19, and what is told.
const MANY: [(&str, &str); 11] = [
    ("", "taken 20 1"),
    ("H = w.G;", "taken 22 1"),
    ("H = ?1.G + ?2.G;", "taken 25 1"),
    ("H = G + 0;", "taken 23 1"),
    ("H = G + G;", "10 0 22"),
    ("H = G + i.0;", "10 0 23"),
    ("H = i.0 + G;", "10 0 23"),
    // the first such place: a name, though the sum stands behind it
    ("H = ?1.J; J = G + i.0;", "10 0 20"),
    ("H = w.(G + i.0);", "10 0 23"),
    // 8 and 9 over all places before 10
    ("H = G + G; J = J;", "8 0 23"),
    (
        "H = G + G; J = w.w.w.w.w.w.w.w.w.w.w.w.w.w.w.w.0;",
        "9 0 39",
    ),
];

#[test]
fn many(rt: HostRuntime) -> Result<(), Fail> {
    for (behind, wanted) in MANY {
        let text = format!(in rt.alloc(); "module A {{ {TO_G} {behind} }}")?;
        let found = told(rt.alloc(), &text)?;
        assert_eq!(rt; found.as_str(), wanted, "{}", behind);
    }
    Ok(())
}

// Two modules at fault: the first is told, whatever the numbers are. `10`, `9` and `8` stand for equations at fault so.
#[test]
fn in_turn(rt: HostRuntime) -> Result<(), Fail> {
    let ten = format!(in rt.alloc(); "{TO_G} H = G + G;")?;
    let nine = format!(in rt.alloc(); "X = w.{WAITS_15}0;")?;
    let eight = "X = X;";
    let cases = [
        (ten.as_str(), eight, "10 0 22"),
        (ten.as_str(), nine.as_str(), "10 0 22"),
        (nine.as_str(), eight, "9 0 16"),
        (nine.as_str(), ten.as_str(), "9 0 16"),
        (eight, ten.as_str(), "8 0 0"),
        ("X = 0;", ten.as_str(), "10 1 22"),
        ("X = 0;", nine.as_str(), "9 1 16"),
    ];
    for (first, second, wanted) in cases {
        let text = format!(in rt.alloc(); "module A {{ {first} }} module B {{ {second} }}")?;
        let found = told(rt.alloc(), &text)?;
        assert_eq!(rt; found.as_str(), wanted, "{}", text);
    }
    Ok(())
}
