// The worked figures that the rule book is held to, as one proved check.
#![tactic(auto)]

ghost use Rattle.std.specs.Prelude.{◌≡◌, pos};
ghost use Rattle.margin_rule.specs.Meanings.{asked};
ghost use Rattle.margin_rule.specs.Rules.{outright, spread, raised};
ghost use Rattle.books.specs.Figures.{lot_reserve, surcharge_for, figures};
ghost use Rattle.books.specs.Market.{initially, published, tax_of};
ghost use Rattle.books.specs.Tests.{declined, answer};
ghost use Rattle.marked_figures.specs.Rows.{future_market, purchase_at, calls, call_of};
ghost use Rattle.marked_figures.specs.Days.{after_day, call_day, future_morning, future_sold};

// It does nothing: each clause is a figure worked by hand that the definitions come to.
pub fn marked_figures()
    // taxes drop the fraction
    ensures future_tax { tax_of 7600 200 2 ≡ 30 }
    ensures option_tax { tax_of 7000 1 100 ≡ 7 }
    // a short call in the money, and one 1,500 ticks out of it
    ensures call_in_the_money { published initially calls (call_of 78500) 2000 ≡ 29000 }
    ensures call_out_of_the_money { published initially calls (call_of 81300) 2000 ≡ 21500 }
    // 3 long and 2 short
    ensures both_sides { (asked outright).need 3 2 83000 ≡ 415000 }
    ensures larger_side { (asked spread).need 3 2 83000 ≡ 249000 }
    // 20,905.5 rounded up
    ensures raised_by_a_tenth { (asked (raised 110 outright)).need 1 0 19005 ≡ 20906 }
    // 500 lots above the share of the limit, and none
    ensures surcharge_above_the_share { surcharge_for 5000 20 83000 1500 ≡ 8300000 }
    ensures surcharge_at_the_share { surcharge_for 5000 20 83000 1000 ≡ 0 }
    // 20 ticks above the mark and a margin
    ensures reserve_of_a_purchase { lot_reserve outright future_market (purchase_at 7620) ≡ 87000 }
    // 150,000 and the premium of 35,000 less fees of 500 and taxes of 35
    ensures balance_of_five_calls { (figures outright (after_day outright call_day)).balance ≡ pos 184465 }
    // less their worth of 50,000
    ensures num_of_five_calls { (figures outright (after_day outright call_day)).num ≡ pos 134465 }
    // 145,000 less 50,000
    ensures den_of_five_calls { (figures outright (after_day outright call_day)).den ≡ pos 95000 }
    // a dollar is missing
    ensures one_dollar_short { answer outright (after_day outright future_morning) future_sold ≡ declined 10 1 }
{}
