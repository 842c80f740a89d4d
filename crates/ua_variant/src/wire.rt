//! The spellings of variants and data values as bytes.

ghost use Rattle.std.specs.Prelude.{◌≡◌, ◌≤◌, length, Err, IfOk, IfErr};
ghost use Rattle.ua_value.specs.Format.{Gives, Reads, input_limit};
ghost use Rattle.ua_variant.specs.Formats.{variant_format, lawful_variant, data_format, lawful_data};
ghost use Rattle.ua_variant.specs.Reading.{VariantCountsMore, DataCountsMore};

use crate::copying::{copy_data, copy_variant};
use crate::reading::data::data_front;
use crate::reading::variant_within;
use crate::variant::{DataValue, Variant};
use crate::writing::{data_len, emit_data, emit_variant, variant_len};
use std::alloc::Global;
use ua_kind::allowance;
use ua_value::{NoMemory, ReadFault, Sink, Wire};

#[tactic(auto, unfolding(crate::specs::Formats::variant_format))]
impl Wire for Variant {
    ghost format = { variant_format };

    ghost most = { 2305843284091607296 };

    ghost Grows = { Unit {0} };

    fn len(&self) -> u64 {
        let _levels = self.levels;
        variant_len(self)
    }

    fn emit<S: Sink>(&self, out: &mut S) -> Result<(), NoMemory> {
        emit_variant(self, out)
    }

    fn copy(&self) -> Result<Variant, NoMemory> {
        copy_variant(self)
    }

    fn read_front(alloc: Global, input: &[u8]) -> Result<(Variant, &[u8]), ReadFault>
        requires { length input.now ≤ input_limit }
        ensures gives { Gives (λ x. (x.0, x.1.now)) result (variant_format.grammar.front input.now) }
        ensures shorter { IfOk result (λ x. length x.1.now ≤ length input.now) }
        ensures memory { IfErr result (λ e. e ≡ ReadFault.NoMemory → Unit {0}) }
        ensures counted { VariantCountsMore input.now → result ≡ Err ReadFault.Refused }
    {
        variant_within(alloc, input, allowance())
    }

    fn read(alloc: Global, input: &[u8]) -> Result<(Variant, usize), ReadFault>
        requires { length input.now ≤ input_limit }
        ensures reads { Reads variant_format input.now result }
        ensures memory { IfErr result (λ e. e ≡ ReadFault.NoMemory → Unit {0}) }
        ensures counted { VariantCountsMore input.now → result ≡ Err ReadFault.Refused }
    {
        match Variant::read_front(alloc, input) {
            Ok((value, rest)) => Ok((value, input.len() - rest.len())),
            Err(fault) => Err(fault),
        }
    }

    ghost laws = { lawful_variant };
}

#[tactic(auto, unfolding(crate::specs::Formats::data_format))]
impl Wire for DataValue {
    ghost format = { data_format };

    ghost most = { 2305843284091607296 };

    ghost Grows = { Unit {0} };

    fn len(&self) -> u64 {
        let _levels = self.levels;
        data_len(self)
    }

    fn emit<S: Sink>(&self, out: &mut S) -> Result<(), NoMemory> {
        emit_data(self, out)
    }

    fn copy(&self) -> Result<DataValue, NoMemory> {
        copy_data(self)
    }

    fn read_front(alloc: Global, input: &[u8]) -> Result<(DataValue, &[u8]), ReadFault>
        requires { length input.now ≤ input_limit }
        ensures gives { Gives (λ x. (x.0, x.1.now)) result (data_format.grammar.front input.now) }
        ensures shorter { IfOk result (λ x. length x.1.now ≤ length input.now) }
        ensures memory { IfErr result (λ e. e ≡ ReadFault.NoMemory → Unit {0}) }
        ensures counted { DataCountsMore input.now → result ≡ Err ReadFault.Refused }
    {
        data_front(alloc, input, allowance())
    }

    fn read(alloc: Global, input: &[u8]) -> Result<(DataValue, usize), ReadFault>
        requires { length input.now ≤ input_limit }
        ensures reads { Reads data_format input.now result }
        ensures memory { IfErr result (λ e. e ≡ ReadFault.NoMemory → Unit {0}) }
        ensures counted { DataCountsMore input.now → result ≡ Err ReadFault.Refused }
    {
        match DataValue::read_front(alloc, input) {
            Ok((value, rest)) => Ok((value, input.len() - rest.len())),
            Err(fault) => Err(fault),
        }
    }

    fn read_items(
        alloc: Global,
        count: u32,
        input: &[u8],
    ) -> Result<(Vec<DataValue>, &[u8]), ReadFault> {
        // Most take eight bytes or more; a list of shorter ones grows.
        Self::read_each(alloc, 0, input.len() / 8, count, input)
    }

    ghost laws = { lawful_data };
}
