//! Laws that speak of the grammar of test messages alone.
ghost use Rattle.std.specs.Prelude.{ℕ, ◌≡◌, ◌<◌, ◌^◌};
ghost use Rattle.l3_orders.specs.Tests.{IsOneTestGrammar, IsTest, IsTheTextOfTest, test_pattern};
ghost use Rattle.l3_orders.specs.declared.link_test.LinkTest.{LinkTest};

/// What is written of a test is read back as that test and no other at the end that it goes to.
pub fn one_test_text()
    ensures { (test : LinkTest) (sio dpc opc : ℕ) → IsTest test → sio < 256
        → dpc < 2 ^ 14 → opc < 2 ^ 14 → IsTheTextOfTest test sio dpc opc }
{}

/// A body is found to be a test exactly where it is the text of one.
pub fn one_test_grammar()
    ensures { IsOneTestGrammar }
{}

/// Two tests of a link have one pattern only if their numbers are the same.
pub fn a_pattern_tells_its_test()
    ensures { (n m : ℕ) → n < 2 ^ 32 → m < 2 ^ 32 → test_pattern n ≡ test_pattern m → n ≡ m }
{}
